//! What no clause says: that memory is found.

use crate::RetryQueue;
use std::test::Fail;

/// Times, parts and offsets in the order in which they are put.
const PUT: [(u64, u32, u64); 6] = [
    (200, 0, 7),
    (100, 1, 5),
    (100, 0, 9),
    (100, 0, 3),
    (300, 2, 1),
    (50, 3, 4),
];

/// Times, what is due then, what is the next time, and the least offset of part 0 that waits.
const DUE: [(u64, Option<(u32, u64)>, Option<u64>, Option<u64>); 8] = [
    (49, None, Some(50), Some(3)),
    (50, Some((3, 4)), Some(100), Some(3)),
    (99, None, Some(100), Some(3)),
    (250, Some((0, 3)), Some(100), Some(7)),
    (250, Some((0, 9)), Some(200), Some(7)),
    (250, Some((0, 7)), Some(300), None),
    (299, None, Some(300), None),
    (300, Some((2, 1)), None, None),
];

#[test]
fn the_least_comes_first(rt: HostRuntime) -> Result<(), Fail> {
    let mut queue = RetryQueue::new(rt.alloc());
    for (ready_at, part, offset) in PUT {
        queue.reserve(1)?;
        queue.reserve_part(part, 1)?;
        queue.put(ready_at, part, offset);
    }
    queue.drop_part(1);
    assert_eq!(rt; queue.least(1), None);
    for (now, due, next_time, least) in DUE {
        assert_eq!(rt; queue.due(now), due, "at {now}");
        assert_eq!(rt; queue.next_time(), next_time, "at {now}");
        assert_eq!(rt; queue.least(0), least, "at {now}");
    }
    assert_eq!(rt; queue.due(u64::MAX), None);
    Ok(())
}
