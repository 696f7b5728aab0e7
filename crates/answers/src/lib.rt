// What start, step and run answer, with the numbers and letters that the papers have for the cases.
#![tactic(auto)]

pub mod answer;
