//! An image of version 2 with three files, and images that are damaged, each in one or two words.

use super::{Damage, Run, Writes};

/// The words that are not zero and in no run of an image of 70 blocks with files of 8193, 600 and 0 bytes.
pub const WORDS: [(usize, u32); 23] = [
    (0, 27),
    (4, 3),
    (8, 3),
    (12, 8193),
    (20, 1735290732),
    (48, 600),
    (52, 2),
    (56, 1919903859),
    (60, 116),
    (492, 2),
    (564, 4294967295),
    (568, 1701736302),
    (3072, 1),
    (3144, 4294967295),
    (3148, 8192),
    (3152, 24),
    (3224, 25),
    (3228, 26),
    (4016, 4294967295),
    (12288, 120),
    (12800, 2038004089),
    (13312, 2038004089),
    (35328, 4294967295),
];

/// The runs of words of the same image: chains of numbers that go up by one, and numbers of none.
pub const RUNS: [Run; 8] = [
    (1004, 5, 512, 2, 0),
    (3080, 16, 4, 8, 1),
    (3156, 16, 4, 4294967295, 0),
    (3232, 14, 4, 4294967295, 0),
    (3288, 4, 72, 4, 1),
    (3584, 6, 72, 8, 1),
    (4096, 16, 512, 2021161080, 0),
    (13824, 42, 512, 28, 1),
];

/// What is on it.
pub const REPORT: (u32, u32, u32) = (3, 43, 11);

/// Writes that break no rule.
pub const HARMLESS: [Writes; 3] = [
    // a byte after the end of a file
    ((12292, 2863311530), (12292, 2863311530)),
    // an unused entry with a size and a first index block
    ((1288, 99), (1292, 3)),
    // offset and data numbers of a free index block
    ((3436, 77), (3440, 1)),
];

/// Writes, the rule that they break and its lowest block.
pub const DAMAGES: [Damage; 81] = [
    // a byte after the zero that ends a name
    ((68, 120), (68, 120), 1, 0),
    // a name that ends, with a byte in its last place
    ((80, 2046820352), (80, 2046820352), 1, 0),
    // a zero within a name
    ((56, 1919877235), (56, 1919877235), 1, 0),
    // the name of an earlier entry
    ((568, 1735290732), (568, 1735290732), 1, 1),
    // equal names in two later entries
    ((1296, 1701736302), (8, 4), 1, 2),
    // one file too many
    ((8, 4), (8, 4), 2, 0),
    // one file too few
    ((8, 2), (8, 2), 2, 0),
    // as many files as a word can say
    ((8, 4294967295), (8, 4294967295), 2, 0),
    // a used entry that is not counted
    ((3012, 113), (3008, 4294967295), 2, 0),
    // the last byte of the first block
    ((508, 16777216), (508, 16777216), 2, 0),
    // the byte after the entries
    ((480, 1), (480, 1), 2, 0),
    // the last byte before the version
    ((488, 16777216), (488, 16777216), 2, 0),
    // the first byte after the version
    ((496, 1), (496, 1), 2, 0),
    // block 1 begins with a byte that is not zero
    ((520, 16777216), (520, 16777216), 2, 1),
    // block 1 has version 0
    ((1004, 0), (1004, 0), 2, 1),
    // block 1 has another version
    ((1004, 3), (1004, 3), 2, 1),
    // the byte after the entries of block 1
    ((992, 1), (992, 1), 2, 1),
    // the last byte of block 1
    ((1020, 2147483648), (1020, 2147483648), 2, 1),
    // block 5 begins with a byte that is not zero
    ((2568, 16777216), (2568, 16777216), 2, 5),
    // block 5 has version 0
    ((3052, 0), (3052, 0), 2, 5),
    // block 5 has another version
    ((3052, 3), (3052, 3), 2, 5),
    // the byte after the entries of block 5
    ((3040, 1), (3040, 1), 2, 5),
    // the last byte of block 5
    ((3068, 2147483648), (3068, 2147483648), 2, 5),
    // blocks 2 and 4
    ((2048, 1), (1520, 1), 2, 2),
    // a byte more than all data blocks hold
    ((48, 31745), (48, 31745), 3, 0),
    // the largest size of a word
    ((560, 4294967295), (560, 4294967295), 3, 1),
    // as much as all data blocks hold, and no numbers
    ((48, 31744), (48, 31744), 4, 6),
    // the free data blocks begin after the last block
    ((0, 70), (0, 70), 4, 0),
    // the free data blocks begin with an index block
    ((0, 7), (0, 7), 4, 0),
    // the free index blocks begin after the last
    ((4, 14), (4, 14), 4, 0),
    // a free data block names a directory block
    ((15360, 0), (15360, 0), 4, 30),
    // a free data block names no block
    ((34816, 70), (34816, 70), 4, 68),
    // a free index block names none of them
    ((3728, 14), (3728, 14), 4, 7),
    // no index block where one is needed
    ((52, 4294967295), (52, 4294967295), 4, 0),
    // a first index block out of range
    ((52, 14), (52, 14), 4, 0),
    // an index block of an empty file
    ((564, 3), (564, 3), 4, 1),
    // no second index block where it is needed
    ((3072, 4294967295), (3072, 4294967295), 4, 6),
    // a third index block where it is not needed
    ((3144, 3), (3144, 3), 4, 6),
    // a next out of range after the last index block that is needed
    ((3216, 14), (3216, 14), 4, 6),
    // no data block where one is needed
    ((3224, 4294967295), (3224, 4294967295), 4, 6),
    // no sixteenth data block
    ((3140, 4294967295), (3140, 4294967295), 4, 6),
    // a data number of the directory
    ((3228, 0), (3228, 0), 4, 6),
    // a data number of an index block
    ((3152, 7), (3152, 7), 4, 6),
    // a data number after the last block
    ((3224, 70), (3224, 70), 4, 6),
    // a data number where none is needed
    ((3232, 40), (3232, 40), 4, 6),
    // zero in place of null
    ((3212, 0), (3212, 0), 4, 6),
    // a size that needs a block less
    ((48, 512), (48, 512), 4, 6),
    // a size that needs a block more
    ((48, 1025), (48, 1025), 4, 6),
    // the second index block has the first offset
    ((3148, 0), (3148, 0), 5, 6),
    // the first index block has an offset
    ((3220, 1), (3220, 1), 5, 6),
    // an offset of 8191
    ((3148, 8191), (3148, 8191), 5, 6),
    // a free data block names itself
    ((20480, 40), (20480, 40), 6, 40),
    // the last free data block names the first
    ((35328, 27), (35328, 27), 6, 27),
    // a free data block names one of a file, whose bytes are no number
    ((20480, 11), (20480, 11), 4, 11),
    // a free data block names one of a file, whose bytes are null
    ((20480, 11), (5632, 4294967295), 6, 11),
    // the free data blocks begin with one of a file, whose bytes are no number
    ((0, 8), (0, 8), 4, 8),
    // the last free index block names an earlier
    ((4016, 5), (4016, 5), 6, 6),
    // the free index blocks begin with one of a file
    ((4, 2), (4, 2), 6, 6),
    // two files with one data block
    ((3224, 24), (3224, 24), 6, 24),
    // two files with one index block, which has too many numbers for the second
    ((52, 0), (52, 0), 4, 6),
    // two files of one size with one index block
    ((52, 0), (48, 8193), 6, 6),
    // a file whose index block comes again
    ((3072, 0), (3072, 0), 6, 6),
    // a data block twice in one file
    ((3084, 8), (3084, 8), 6, 8),
    // the first free data block is left out
    ((0, 28), (0, 28), 7, 27),
    // a free data block is left out
    ((20480, 42), (20480, 42), 7, 41),
    // the free data blocks end early
    ((25600, 4294967295), (25600, 4294967295), 7, 51),
    // no free data block
    ((0, 4294967295), (0, 4294967295), 7, 27),
    // a free index block of the second disk block is left out
    ((3656, 10), (3656, 10), 7, 7),
    // the free index blocks end early
    ((3504, 4294967295), (3504, 4294967295), 7, 7),
    // no free index block
    ((4, 4294967295), (4, 4294967295), 7, 6),
    // rules 1 and 3: the lower rule
    ((48, 31745), (568, 1735290732), 1, 1),
    // rules 2 and 7: the lower rule
    ((8, 1), (0, 4294967295), 2, 0),
    // rules 4 and 5: the lower rule, in the higher block
    ((3220, 1), (30720, 70), 4, 60),
    // rule 4 twice: the lower block
    ((30720, 70), (16896, 70), 4, 33),
    // the lower block
    ((30720, 70), (3152, 70), 4, 6),
    // rule 5 twice: the lower block
    ((3148, 1), (3220, 1), 5, 6),
    // rules 5 and 6: the lower rule
    ((3148, 1), (20480, 40), 5, 6),
    // rules 6 and 7: a cycle leaves blocks out
    ((20480, 30), (20480, 30), 6, 30),
    // rule 6 twice: the index block is the lower
    ((20480, 40), (4016, 5), 6, 6),
    // rule 7 twice: the lower block
    ((30720, 62), (16896, 35), 7, 34),
    // rule 7 in an index block and in a data block
    ((16896, 35), (3656, 10), 7, 7),
];
