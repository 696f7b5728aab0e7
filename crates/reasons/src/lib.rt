// Why a sheet is refused: which text says it, and which fields of the sheet it quotes.
#![tactic(auto)]

mod fence;
pub mod finding;
mod line;
pub mod part;
pub mod reason;
mod stamp;
