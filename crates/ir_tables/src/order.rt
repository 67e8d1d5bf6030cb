//! An order of named types in which each stands behind the types that it has as parts, as far as there is one.
use crate::table::Places;
use ir_core::{List, OutOfMemory, Ty, TypeDef};
use std::alloc::Global;

/// Who waits for whom.
#[derive(Drop)]
struct Waiting {
    /// For each type, those that have it as a part, once for each such part.
    waiters: Vec<List<usize>>,
    /// For each type, how many of its parts aren't in the order yet.
    left: Vec<usize>,
}

impl Waiting {
    fn new(alloc: Global, types: usize) -> Result<Waiting, OutOfMemory> {
        let mut waiters = Vec::new(alloc);
        for _ in 0..types {
            if waiters.push(List::new(alloc)).is_err() {
                return Err(OutOfMemory);
            }
        }
        Ok(Waiting {
            waiters,
            left: Vec::new(alloc),
        })
    }

    /// The type at a place waits for the one at `part`. How many it waits for now.
    fn wait(&mut self, at: usize, part: usize) -> Result<usize, OutOfMemory> {
        match self.waiters.get_mut(part) {
            None => Ok(0),
            Some(waiters) => {
                waiters.push(at)?;
                Ok(1)
            }
        }
    }

    /// The type at a place is in the order; those that wait for nothing more go there too.
    fn release(&mut self, at: usize, order: &mut List<usize>) -> Result<(), OutOfMemory> {
        let Some(waiters) = self.waiters.get(at) else {
            return Ok(());
        };
        for waiter in waiters.as_slice() {
            if let Some(left) = self.left.get_mut(*waiter) {
                *left = left.saturating_sub(1);
                if *left == 0 {
                    order.push(*waiter)?;
                }
            }
        }
        Ok(())
    }
}

/// Lets the type at a place wait for each named part of its body. How many there are.
#[cycle(wait_for)]
fn wait_for(
    waiting: &mut Waiting,
    places: &Places,
    at: usize,
    body: &Ty,
) -> Result<usize, OutOfMemory> {
    match body {
        Ty::Void | Ty::Int(_) | Ty::Ptr => Ok(0),
        Ty::Array(_, item) => wait_for(waiting, places, at, item.get()),
        Ty::Struct(fields) => wait_for_fields(waiting, places, at, fields.as_slice()),
        Ty::Named(name) => match places.place(name) {
            None => Ok(0),
            Some(part) => waiting.wait(at, part),
        },
    }
}

#[cycle(wait_for)]
fn wait_for_fields(
    waiting: &mut Waiting,
    places: &Places,
    at: usize,
    fields: &[Ty],
) -> Result<usize, OutOfMemory> {
    let mut parts: usize = 0;
    for field in fields {
        parts = parts.saturating_add(wait_for(waiting, places, at, field)?);
    }
    Ok(parts)
}

/// The places of the types in such an order. A type that contains itself isn't in it, nor one that has such a part.
pub(crate) fn order_of(
    alloc: Global,
    types: &[TypeDef],
    places: &Places,
) -> Result<List<usize>, OutOfMemory> {
    let mut waiting = Waiting::new(alloc, types.len())?;
    let mut order = List::new(alloc);
    for at in 0..types.len() {
        let parts = wait_for(&mut waiting, places, at, &types[at].body)?;
        if waiting.left.push(parts).is_err() {
            return Err(OutOfMemory);
        }
        if parts == 0 {
            order.push(at)?;
        }
    }
    for next in 0..types.len() {
        let Some(at) = order.as_slice().get(next).copied() else {
            break;
        };
        waiting.release(at, &mut order)?;
    }
    Ok(order)
}
