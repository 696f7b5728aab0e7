// An item put at an index of a slice.
ghost use Rattle.std.specs.Prelude.{◌≡◌, set};

// Puts an item at an index, none past the end. No `get_mut`: after it a proof knows the length of a slice and no item.
#[tactic(auto, using(std::proofs::lemmas::List::set_past))]
pub fn put_at<T: Copy>(items: &mut [T], at: usize, item: T)
    ensures { items.new ≡ set items.old at item }
{
    if at < items.len() {
        items[at] = item;
    }
}
