//! What no clause says: that memory is found.

ghost use Rattle.std.specs.Prelude.{◌≡◌, ℕ, ◌∷◌, None, true, [], IfOk, IfSome};
ghost use Rattle.pc_shards.specs.Entries.{bare_record, is_first_offset, new_entry, of_part};

use crate::Shards;
use pc_model::Order;
use std::alloc::{AllocError, Global};
use std::test::Fail;

/// An order, the keys of offsets 0, 1 and 2, which offsets are ready after the first, one by one,
/// and which is ready when the first is done.
const ROWS: [(
    Order,
    Option<&[u8]>,
    Option<&[u8]>,
    Option<&[u8]>,
    Option<u64>,
    Option<u64>,
    Option<u64>,
); 5] = [
    (Order::Key, None, Some(b""), None, Some(1), None, Some(2)),
    (
        Order::Key,
        Some(b"a"),
        Some(b"ab"),
        Some(b"a"),
        Some(1),
        None,
        Some(2),
    ),
    (
        Order::Key,
        Some(b"ab"),
        Some(b"a"),
        Some(b"b"),
        Some(1),
        Some(2),
        None,
    ),
    (Order::None, None, None, None, Some(1), Some(2), None),
    (
        Order::Partition,
        None,
        Some(b""),
        Some(b"a"),
        None,
        None,
        Some(1),
    ),
];

#[test]
fn keys_run_one_by_one(rt: HostRuntime) -> Result<(), Fail> {
    for (order, first_key, second_key, third_key, second, third, next) in ROWS {
        let mut shards = three(rt.alloc(), order, first_key, second_key, third_key)?;
        let Some(first) = busy_next(&mut shards) else {
            panic!(&rt; "none is ready");
        };
        assert_eq!(rt; first, 0);
        assert_eq!(rt; busy_next(&mut shards), second);
        assert_eq!(rt; busy_next(&mut shards), third);
        shards.done(0, first);
        assert_eq!(rt; shards.least_ready(0), next);
    }
    Ok(())
}

#[test]
fn parts_are_apart(rt: HostRuntime) -> Result<(), Fail> {
    let mut shards = three(rt.alloc(), Order::Key, None, None, None)?;
    shards.add(2, 7, None)?;
    let Some(first) = busy_next(&mut shards) else {
        panic!(&rt; "none is ready");
    };
    assert_eq!(rt; shards.least_ready(0), None);
    assert_eq!(rt; shards.least_ready(1), None);
    assert_eq!(rt; shards.least_ready(2), Some(7));
    shards.free(0, first);
    shards.drop_part(2);
    assert_eq!(rt; shards.least_ready(0), Some(0));
    assert_eq!(rt; shards.least_ready(2), None);
    shards.clear();
    assert_eq!(rt; shards.least_ready(0), None);
    shards.add(0, 3, None)?;
    assert_eq!(rt; shards.least_ready(0), Some(3));
    Ok(())
}

#[test]
fn failures_are_counted(rt: HostRuntime) -> Result<(), Fail> {
    for order in [Order::None, Order::Partition, Order::Key] {
        let mut shards = one(rt.alloc(), order)?;
        fail_once(&mut shards);
        let Some(entry) = shards.entry(0, 7) else {
            panic!(&rt; "the entry is gone");
        };
        assert_eq!(rt; entry.record.offset, 7);
        assert_eq!(rt; entry.record.key, None);
        assert_eq!(rt; entry.failures, 1);
        assert!(rt; !entry.is_busy);
        assert_eq!(rt; shards.least_ready(0), Some(7));
        assert!(rt; shards.entry(0, 6).is_none());
        assert!(rt; shards.entry(1, 7).is_none());
        assert_eq!(rt; shards.count(0), 1);
    }
    Ok(())
}

#[test]
fn cut_back_to_each_length(rt: HostRuntime) -> Result<(), Fail> {
    for (order, len, first, second, third) in [
        (Order::Key, 3, Some(4), Some(6), Some(7)),
        (Order::Key, 2, Some(4), Some(6), None),
        (Order::Key, 1, Some(4), None, None),
        (Order::Key, 0, None, None, None),
        (Order::None, 3, Some(4), Some(6), Some(7)),
        (Order::None, 2, Some(4), Some(6), None),
        (Order::Partition, 3, Some(4), None, Some(6)),
        (Order::Partition, 1, Some(4), None, None),
    ] {
        let mut shards = three_apart(rt.alloc(), order)?;
        shards.truncate(0, len);
        assert_eq!(rt; shards.count(0), len);
        let least = busy_next(&mut shards);
        assert_eq!(rt; least, first);
        assert_eq!(rt; busy_next(&mut shards), second);
        if let Some(offset) = least {
            shards.done(0, offset);
        }
        assert_eq!(rt; shards.least_ready(0), third);
    }
    Ok(())
}

/// Part 0 with the offsets 0, 1 and 2.
fn three(
    alloc: Global,
    order: Order,
    first: Option<&'static [u8]>,
    second: Option<&'static [u8]>,
    third: Option<&'static [u8]>,
) -> Result<Shards<'static>, AllocError>
    ensures { IfOk result (λ shards. of_part shards 2 ≡ []) }
{
    let mut shards = Shards::new(alloc, order);
    shards.add(0, 0, first)?;
    shards.add(0, 1, second)?;
    shards.add(0, 2, third)?;
    Ok(shards)
}

/// Part 0 with the offsets 4, 6 and 7, for which room was made before. The first and the last have
/// the same key.
fn three_apart(alloc: Global, order: Order) -> Result<Shards<'static>, AllocError> {
    let mut shards = Shards::new(alloc, order);
    shards.reserve(0, 3)?;
    shards.add(0, 4, Some(b"a"))?;
    shards.add(0, 6, None)?;
    shards.add(0, 7, Some(b"a"))?;
    Ok(shards)
}

/// Part 0 with the offset 7.
fn one(alloc: Global, order: Order) -> Result<Shards<'static>, AllocError>
    ensures { IfOk result (λ shards.
        of_part shards 0 ≡ new_entry (bare_record 7 None) ∷ []) }
{
    let mut shards = Shards::new(alloc, order);
    shards.add(0, 7, None)?;
    Ok(shards)
}

/// Counts one failure of the only record.
fn fail_once(shards: &mut Shards<'_>)
    requires { of_part shards.old 0 ≡ new_entry (bare_record 7 None) ∷ [] }
{
    shards.fail(0, 7);
}

/// Makes the least ready offset of part 0 busy.
fn busy_next(shards: &mut Shards<'_>) -> Option<u64>
    ensures first { IfSome result (λ o.
        is_first_offset shards.new.order 0 (of_part shards.new 0) o ≡ true) }
    ensures stays { (o : ℕ) → is_first_offset shards.old.order 0 (of_part shards.old 0) o ≡ true
        → is_first_offset shards.new.order 0 (of_part shards.new 0) o ≡ true }
{
    let offset = shards.least_ready(0)?;
    shards.busy(0, offset);
    Some(offset)
}
