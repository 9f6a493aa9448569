//! What the number of a soak test gives: the first words of a program; and the counts of a text.

use std::test::Fail;
use workload::{Draws, Tally, program_file};
use xinu_base::End;

/// The first instructions of the first program that the number 0 gives: `getpid`, `getmem 20` and `chprio 3 12`.
const FIRST: [u32; 12] = [
    0x0010_0893,
    0x0000_0073,
    0x0000_0537,
    0x0145_0513,
    0x00a0_0893,
    0x0000_0073,
    0x0000_0537,
    0x0035_0513,
    0x0000_05b7,
    0x00c5_8593,
    0x0070_0893,
    0x0000_0073,
];

/// The bytes of the header and of the two texts before them.
const BEFORE: usize = 36;

#[test]
fn the_number_0_gives_getpid_first(rt: HostRuntime) -> Result<(), Fail> {
    let Ok(file) = program_file(rt.alloc(), 1, &mut Draws::new(0)) else {
        return Err(Fail::from("no memory"));
    };
    for (k, word) in FIRST.iter().enumerate() {
        let at = BEFORE + 4 * k;
        assert_eq!(rt;
            file.as_slice().get(at..at + 4),
            Some(word.to_le_bytes().as_slice())
        );
    }
    Ok(())
}

#[test]
fn lines_are_counted_by_their_first_words(rt: HostRuntime) -> Result<(), Fail> {
    let mut tally = Tally::new();
    tally.add(b"run 1\ncall 1 getpid\nret 1 1\n");
    tally.add(b"con 61\nconsole cooked 0 0 0 0 run\nend schedule\n");
    let Ok(line) = tally.summary(rt.alloc(), 7, 4, End::Schedule) else {
        return Err(Fail::from("no memory"));
    };
    let counted = "soak 7 events 4 calls 1 rets 1 switches 1 con 1 end schedule\n";
    assert_eq!(rt; line.as_str(), counted);
    Ok(())
}
