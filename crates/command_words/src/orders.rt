ghost use Rattle.std.specs.Prelude.{◌≡◌, ◌≤◌, IfOk, map, option_map};
ghost use Rattle.command_words.specs.Values.{each_in, never_falls, order_by, order_in, orders_in};

use crate::numbers::number_between;
use crate::pieces::{colon_pieces, comma_pieces};
use dispatch_loop::MOST_ORDERS;
use flow_work::MOST_PACKETS;
use indirection::{MOST_BUCKETS, MOST_CORES, MoveOrder};
use std::alloc::{AllocError, Global};

// The order of these parts: its position, its bucket and its core.
fn order_of(cores: u8, buckets: u16, parts: &[&str]) -> Option<MoveOrder>
    requires low { (1 ≤ cores) × (1 ≤ buckets) }
    requires high { (cores ≤ MOST_CORES) × (buckets ≤ MOST_BUCKETS) }
    ensures { result ≡ order_by cores buckets (map (λ s. s.now) parts.now) }
{
    match parts {
        [at, bucket, to] => {
            let at = number_between(0, u64::from(MOST_PACKETS), at)? as u32;
            let bucket = number_between(0, u64::from(buckets - 1), bucket)? as u16;
            let to = number_between(0, u64::from(cores - 1), to)? as u8;
            Some(MoveOrder { at, bucket, to })
        }
        _ => None,
    }
}

fn orders_of(
    alloc: Global,
    cores: u8,
    buckets: u16,
    texts: &[&str],
) -> Result<Option<Vec<MoveOrder>>, AllocError>
    requires low { (1 ≤ cores) × (1 ≤ buckets) }
    requires high { (cores ≤ MOST_CORES) × (buckets ≤ MOST_BUCKETS) }
    ensures { IfOk result (λ o. option_map (λ v. v.items) o
        ≡ each_in (order_in cores buckets) (map (λ s. s.now) texts.now)) }
{
    let mut orders = Vec::new(alloc);
    for text in texts {
        let parts = colon_pieces(alloc, text)?;
        match order_of(cores, buckets, parts.as_slice()) {
            None => return Ok(None),
            Some(order) => orders.push(order)?,
        }
    }
    Ok(Some(orders))
}

// Whether no position falls below the one before it.
fn never_falls(orders: &[MoveOrder]) -> bool
    ensures { result ≡ never_falls 0 orders.now }
{
    let mut least = 0;
    for order in orders {
        if order.at < least {
            return false;
        }
        least = order.at;
    }
    true
}

/// The orders that the text spells, with commas between.
pub fn orders_in(
    alloc: Global,
    cores: u8,
    buckets: u16,
    text: &str,
) -> Result<Option<Vec<MoveOrder>>, AllocError>
    requires low { (1 ≤ cores) × (1 ≤ buckets) }
    requires high { (cores ≤ MOST_CORES) × (buckets ≤ MOST_BUCKETS) }
    ensures { IfOk result (λ o. option_map (λ v. v.items) o ≡ orders_in cores buckets text.now) }
{
    let texts = comma_pieces(alloc, text)?;
    match orders_of(alloc, cores, buckets, texts.as_slice())? {
        None => Ok(None),
        Some(orders) => {
            if orders.len() > MOST_ORDERS {
                return Ok(None);
            }
            if never_falls(orders.as_slice()) {
                Ok(Some(orders))
            } else {
                Ok(None)
            }
        }
    }
}
