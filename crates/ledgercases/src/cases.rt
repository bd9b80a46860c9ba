// All cases of a text, one after another.
use crate::case::run;
use crate::lines::Lines;
use crate::order::{Line, Order, read};
use kinds::{Dials, KindName, Toggles, Wh};
use std::alloc::{AllocError, Global};

// The kind that the first such order names, watt-hours where there is none.
fn kind(orders: &[Order]) -> KindName {
    let named = orders.iter().find_map(|order| match order {
        Order::Kind(kind) => Some(*kind),
        _ => None,
    });
    named.unwrap_or(KindName::Wh)
}

// The count that the first such order names, as many as there are boundaries where there is none.
fn distances(orders: &[Order]) -> u16 {
    let named = orders.iter().find_map(|order| match order {
        Order::Distances(count) => Some(*count),
        _ => None,
    });
    named.unwrap_or(1024)
}

// Runs one case at its kind.
fn run_case(orders: &[Order], closing: bool, out: &mut Lines) -> Result<(), AllocError> {
    let count = distances(orders);
    // Stays: three types, of which one is chosen by what was read.
    match kind(orders) {
        KindName::Wh => run::<Wh>(count, orders, closing, out),
        KindName::Toggles => run::<Toggles>(count, orders, closing, out),
        KindName::Dials => run::<Dials>(count, orders, closing, out),
    }
}

// The answers to a text. A case ends where it is closed, where the next one begins, or with the text.
pub fn answers(heap: Global, text: &str) -> Result<Lines, AllocError> {
    let mut out = Lines::new(heap);
    let mut orders = Vec::new(heap);
    for line in text.lines() {
        let closing = match read(heap, line)? {
            Line::Blank => continue,
            Line::Asked(order) => {
                orders.push(order)?;
                continue;
            }
            Line::Case => false,
            Line::Close => true,
        };
        run_case(&orders, closing, &mut out)?;
        // A new list, so that the memory of a long case is free for what follows.
        orders = Vec::new(heap);
    }
    run_case(&orders, false, &mut out)?;
    Ok(out)
}
