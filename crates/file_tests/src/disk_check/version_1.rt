//! An image of version 1 with three files, and images that are damaged, each in one or two words.

use super::{Damage, Run, Writes};

/// The words that are not zero and in no run of an image of 70 blocks with files of 8193, 600 and 0 bytes.
pub const WORDS: [(usize, u32); 22] = [
    (0, 22),
    (4, 3),
    (8, 3),
    (12, 8193),
    (20, 1735290732),
    (36, 600),
    (40, 2),
    (44, 1919903859),
    (48, 116),
    (472, 4294967295),
    (476, 1701736302),
    (512, 1),
    (584, 4294967295),
    (588, 8192),
    (592, 19),
    (664, 20),
    (668, 21),
    (1456, 4294967295),
    (9728, 120),
    (10240, 2038004089),
    (10752, 2038004089),
    (35328, 4294967295),
];

/// The runs of words of the same image: chains of numbers that go up by one, and numbers of none.
pub const RUNS: [Run; 7] = [
    (520, 16, 4, 3, 1),
    (596, 16, 4, 4294967295, 0),
    (672, 14, 4, 4294967295, 0),
    (728, 4, 72, 4, 1),
    (1024, 6, 72, 8, 1),
    (1536, 16, 512, 2021161080, 0),
    (11264, 47, 512, 23, 1),
];

/// What is on it.
pub const REPORT: (u32, u32, u32) = (3, 48, 11);

/// Writes that break no rule.
pub const HARMLESS: [Writes; 3] = [
    // a byte after the end of a file
    ((9732, 2863311530), (9732, 2863311530)),
    // an unused entry with a size and a first index block
    ((180, 99), (184, 3)),
    // offset and data numbers of a free index block
    ((876, 77), (880, 1)),
];

/// Writes, the rule that they break and its lowest block.
pub const DAMAGES: [Damage; 68] = [
    // a byte after the zero that ends a name
    ((56, 120), (56, 120), 1, 0),
    // a name of 16 bytes
    ((52, 1684234849), (56, 1684234849), 1, 0),
    // a zero within a name
    ((44, 1919877235), (44, 1919877235), 1, 0),
    // the name of an earlier entry
    ((476, 1735290732), (476, 1735290732), 1, 0),
    // equal names in two later entries
    ((188, 1701736302), (8, 4), 1, 0),
    // one file too many
    ((8, 4), (8, 4), 2, 0),
    // one file too few
    ((8, 2), (8, 2), 2, 0),
    // as many files as a word can say
    ((8, 4294967295), (8, 4294967295), 2, 0),
    // a used entry that is not counted
    ((452, 113), (448, 4294967295), 2, 0),
    // the last byte of the first block
    ((508, 16777216), (508, 16777216), 2, 0),
    // the byte after the entries
    ((492, 1), (492, 1), 2, 0),
    // a byte more than all data blocks hold
    ((36, 34305), (36, 34305), 3, 0),
    // the largest size of a word
    ((468, 4294967295), (468, 4294967295), 3, 0),
    // as much as all data blocks hold, and no numbers
    ((36, 34304), (36, 34304), 4, 1),
    // the free data blocks begin after the last block
    ((0, 70), (0, 70), 4, 0),
    // the free data blocks begin with an index block
    ((0, 2), (0, 2), 4, 0),
    // the free index blocks begin after the last
    ((4, 14), (4, 14), 4, 0),
    // a free data block names a directory block
    ((15360, 0), (15360, 0), 4, 30),
    // a free data block names no block
    ((34816, 70), (34816, 70), 4, 68),
    // a free index block names none of them
    ((1168, 14), (1168, 14), 4, 2),
    // no index block where one is needed
    ((40, 4294967295), (40, 4294967295), 4, 0),
    // a first index block out of range
    ((40, 14), (40, 14), 4, 0),
    // an index block of an empty file
    ((472, 3), (472, 3), 4, 0),
    // no second index block where it is needed
    ((512, 4294967295), (512, 4294967295), 4, 1),
    // a third index block where it is not needed
    ((584, 3), (584, 3), 4, 1),
    // a next out of range after the last index block that is needed
    ((656, 14), (656, 14), 4, 1),
    // no data block where one is needed
    ((664, 4294967295), (664, 4294967295), 4, 1),
    // no sixteenth data block
    ((580, 4294967295), (580, 4294967295), 4, 1),
    // a data number of the directory
    ((668, 0), (668, 0), 4, 1),
    // a data number of an index block
    ((592, 2), (592, 2), 4, 1),
    // a data number after the last block
    ((664, 70), (664, 70), 4, 1),
    // a data number where none is needed
    ((672, 40), (672, 40), 4, 1),
    // zero in place of null
    ((652, 0), (652, 0), 4, 1),
    // a size that needs a block less
    ((36, 512), (36, 512), 4, 1),
    // a size that needs a block more
    ((36, 1025), (36, 1025), 4, 1),
    // the second index block has the first offset
    ((588, 0), (588, 0), 5, 1),
    // the first index block has an offset
    ((660, 1), (660, 1), 5, 1),
    // an offset of 8191
    ((588, 8191), (588, 8191), 5, 1),
    // a free data block names itself
    ((20480, 40), (20480, 40), 6, 40),
    // the last free data block names the first
    ((35328, 22), (35328, 22), 6, 22),
    // a free data block names one of a file, whose bytes are no number
    ((20480, 6), (20480, 6), 4, 6),
    // a free data block names one of a file, whose bytes are null
    ((20480, 6), (3072, 4294967295), 6, 6),
    // the free data blocks begin with one of a file, whose bytes are no number
    ((0, 3), (0, 3), 4, 3),
    // the last free index block names an earlier
    ((1456, 5), (1456, 5), 6, 1),
    // the free index blocks begin with one of a file
    ((4, 2), (4, 2), 6, 1),
    // two files with one data block
    ((664, 19), (664, 19), 6, 19),
    // two files with one index block, which has too many numbers for the second
    ((40, 0), (40, 0), 4, 1),
    // two files of one size with one index block
    ((40, 0), (36, 8193), 6, 1),
    // a file whose index block comes again
    ((512, 0), (512, 0), 6, 1),
    // a data block twice in one file
    ((524, 3), (524, 3), 6, 3),
    // the first free data block is left out
    ((0, 23), (0, 23), 7, 22),
    // a free data block is left out
    ((20480, 42), (20480, 42), 7, 41),
    // the free data blocks end early
    ((25600, 4294967295), (25600, 4294967295), 7, 51),
    // no free data block
    ((0, 4294967295), (0, 4294967295), 7, 22),
    // a free index block of the second disk block is left out
    ((1096, 10), (1096, 10), 7, 2),
    // the free index blocks end early
    ((944, 4294967295), (944, 4294967295), 7, 2),
    // no free index block
    ((4, 4294967295), (4, 4294967295), 7, 1),
    // rules 1 and 3: the lower rule
    ((36, 34305), (476, 1735290732), 1, 0),
    // rules 2 and 7: the lower rule
    ((8, 1), (0, 4294967295), 2, 0),
    // rules 4 and 5: the lower rule, in the higher block
    ((660, 1), (30720, 70), 4, 60),
    // rule 4 twice: the lower block
    ((30720, 70), (16896, 70), 4, 33),
    // the lower block
    ((30720, 70), (592, 70), 4, 1),
    // rule 5 twice: the lower block
    ((588, 1), (660, 1), 5, 1),
    // rules 5 and 6: the lower rule
    ((588, 1), (20480, 40), 5, 1),
    // rules 6 and 7: a cycle leaves blocks out
    ((20480, 30), (20480, 30), 6, 30),
    // rule 6 twice: the index block is the lower
    ((20480, 40), (1456, 5), 6, 1),
    // rule 7 twice: the lower block
    ((30720, 62), (16896, 35), 7, 34),
    // rule 7 in an index block and in a data block
    ((16896, 35), (1096, 10), 7, 2),
];
