use crate::fault::CaseFault;
use lk_val::Items;
use std::alloc::Global;

/// What a text writes as one of a list.
pub trait Listed {
    /// What the text writes.
    fn read(alloc: Global, text: &str) -> Result<Self, CaseFault>;
}

/// What a text writes one behind the other, with the same between each two; nothing where it is empty. Spaces around each
/// don't count.
pub fn items_of<T: Listed + Drop>(
    alloc: Global,
    text: &str,
    between: &str,
) -> Result<Items<T>, CaseFault> {
    let mut items = Items::new(alloc);
    if !text.is_empty() {
        push_items::<T>(alloc, text, between, &mut items)?;
    }
    Ok(items)
}

fn push_items<T: Listed + Drop>(
    alloc: Global,
    text: &str,
    between: &str,
    items: &mut Items<T>,
) -> Result<(), CaseFault> {
    for word in text.split(between) {
        items.push(T::read(alloc, word.trim())?)?;
    }
    Ok(())
}
