//! A table of summaries over one part.

use super::*;
use pc_broker_log::BrokerLogs;
use pc_cursor::Log;
use pc_model::Setup;
use std::test::Fail;

// One batch with the records (0, "a", "x"), (1, "b", "yy") and (2, "a", "zzz").
const THREE_RECORDS: [u8; 91] = [
    0x00, 0x00, 0x00, 0x00, 0x00, 0x00, 0x00, 0x00, //
    0x00, 0x00, 0x00, 0x4F, 0x00, 0x00, 0x00, 0x00, 0x02, 0xD6, 0xFC, 0x11, 0xEE, //
    0x00, 0x00, 0x00, 0x00, 0x00, 0x02, //
    0x00, 0x00, 0x00, 0x00, 0x00, 0x00, 0x00, 0x00, //
    0x00, 0x00, 0x00, 0x00, 0x00, 0x00, 0x00, 0x00, //
    0xFF, 0xFF, 0xFF, 0xFF, 0xFF, 0xFF, 0xFF, 0xFF, //
    0xFF, 0xFF, 0xFF, 0xFF, 0xFF, 0xFF, 0x00, 0x00, 0x00, 0x03, //
    0x10, 0x00, 0x00, 0x00, 0x02, 0x61, 0x02, 0x78, 0x00, //
    0x12, 0x00, 0x00, 0x02, 0x02, 0x62, 0x04, 0x79, 0x79, 0x00, //
    0x14, 0x00, 0x00, 0x04, 0x02, 0x61, 0x06, 0x7A, 0x7A, 0x7A, 0x00,
];

/// The log of part 0, a journal and its summary.
type Row = (&'static [u8], &'static [u8], &'static [u8]);

const ROWS: [Row; 7] = [
    (
        &THREE_RECORDS,
        b"assign 0 epoch 1 at 0 map =\ndone\n",
        b"record 0 0 =1\nrecord 0 1 =2\nrecord 0 2 =3\nend 0 3\n",
    ),
    // The map's second bit passes over offset 2.
    (
        &THREE_RECORDS,
        b"assign 0 epoch 1 at 1 map =bAACAg==\n",
        b"record 0 1 =2\nend 0 3\n",
    ),
    // The first assignment counts.
    (
        &THREE_RECORDS,
        b"assign 0 epoch 1 at 2 map =\ncrash\nassign 0 epoch 3 at 0 map =\n",
        b"record 0 2 =3\nend 0 3\n",
    ),
    // A map that does not read passes over nothing.
    (
        &THREE_RECORDS,
        b"assign 0 epoch 1 at 3 map =!\n",
        b"end 0 3\n",
    ),
    (b"", b"assign 0 epoch 1 at 5 map =\n", b"end 0 5\n"),
    (&THREE_RECORDS, b"assign 0 epoch 1 at 0 map =\ncrash\n", b""),
    (
        &THREE_RECORDS,
        b"assign 0 epoch 1 at 0 map =\nlost 0 epoch 1\n",
        b"",
    ),
];

#[test]
fn summaries(rt: HostRuntime) -> Result<(), Fail> {
    let setup = Setup::with_defaults(rt.alloc())?;
    for (bytes, text, summary) in ROWS {
        let journal = read_journal(rt.alloc(), text)?;
        let log = Log::check(rt.alloc(), bytes)?;
        let mut logs = BrokerLogs::new(rt.alloc());
        logs.add(0, log)?;
        let mut out = [b'>'].to_vec(rt.alloc())?;
        put_summary(rt.alloc(), &mut out, &setup, &logs, &journal)?;
        assert_eq!(rt; out.first(), Some(&b'>'));
        assert_eq!(rt; out.get(1..), Some(summary), "of {text:?}");
    }
    Ok(())
}
