//! Configurations as users write them, with the key of the first row that is violated. Each row is broken once, and rows
//! are broken together. The texts and keys are those of docs/FORMATS.md, "Configuration".

use super::*;
use dm_base::{ConfKey, DaemonConf, GroupConf, GroupId, SpaceConf, Vsn};
use std::alloc::{AllocError, Global};
use std::test::*;

const PLAIN: &str =
    "site = 1\nage = 100\ncap = 100000\ncopies = [1]\n[group.1]\ndrives = 2\nchunk = 1000\nsparse = 50\nhold = 50\nvolumes = [\"AA0001\", \"AA0002\", \"AA0003\"]\nsize = 424\n";

const GROUP: &str = "\n[group.1]\nvolumes = [\"AA0001\"]\nsize = 424\n";

const TOP: &str = "site = 1\ncopies = [1]\n";

// Whether the text is refused for this key.
fn is_refused(alloc: Global, text: &[u8], key: ConfKey) -> bool {
    match read_config(alloc, text) {
        Ok(_) => false,
        Err(error) => error == ConfigError::BadConfig { key },
    }
}

// The same, of three parts behind one another.
fn refuses(alloc: Global, parts: [&str; 3], key: ConfKey) -> bool {
    match joined(alloc, parts) {
        Ok(text) => is_refused(alloc, text.as_bytes(), key),
        Err(_) => false,
    }
}

fn joined(alloc: Global, parts: [&str; 3]) -> Result<String, AllocError> {
    let [first, second, third] = parts;
    let mut text = String::from_str(alloc, first)?;
    text.push_str(second)?;
    text.push_str(third)?;
    Ok(text)
}

fn has_plain_group(groups: &[GroupConf]) -> bool {
    let [group] = groups else {
        return false;
    };
    let [_, _, last] = group.volumes.as_slice() else {
        return false;
    };
    let numbers = [group.chunk, group.sparse, group.hold, group.size];
    group.group == GroupId(1)
        && group.drives == 2
        && group.format == 1
        && numbers == [1000, 50, 50, 424]
        && *last == Vsn(*b"AA0003")
}

fn is_plain(config: &Config) -> bool {
    let daemon = DaemonConf {
        site: 1,
        first: 1,
        age: 100,
        cap: 100_000,
    };
    let space = SpaceConf {
        high: 100_000,
        low: 100_000,
        ahead: 100_000,
        age_weight: 1,
        size_weight: 0,
    };
    config.daemon == daemon
        && config.sessions == 4
        && config.copies == [Some(GroupId(1)), None]
        && config.space == space
        && has_plain_group(config.groups.as_slice())
}

fn has_default_group(groups: &[GroupConf]) -> bool {
    let [group] = groups else {
        return false;
    };
    let numbers = [group.chunk, group.sparse, group.hold];
    group.drives == 2 && numbers == [1_048_576, 50, 172_800]
}

fn is_default(config: &Config) -> bool {
    config.daemon.age == 2_592_000
        && config.daemon.cap == 67_108_864
        && has_default_group(config.groups.as_slice())
}

fn reads_plain(alloc: Global) -> bool {
    match read_config(alloc, PLAIN.as_bytes()) {
        Ok(config) => is_plain(&config),
        Err(_) => false,
    }
}

fn reads_default(alloc: Global) -> bool {
    let Ok(text) = joined(alloc, [TOP, GROUP, ""]) else {
        return false;
    };
    match read_config(alloc, text.as_bytes()) {
        Ok(config) => is_default(&config),
        Err(_) => false,
    }
}

#[test]
fn configurations_are_read(rt: HostRuntime) {
    assert!(rt; reads_plain(rt.alloc()));
    assert!(rt; reads_default(rt.alloc()));
}

// Texts in three parts, with the key that each is refused for.
type Refused = ([&'static str; 3], ConfKey);

const FIRST: GroupId = GroupId(1);

const AT_THE_TOP: [Refused; 20] = [
    (["copies = [1]", "", GROUP], ConfKey::Site),
    (["site = 0\ncopies = [1]", "", GROUP], ConfKey::Site),
    (
        ["site = 9223372036854775808\ncopies = [1]", "", GROUP],
        ConfKey::Toml,
    ),
    ([TOP, "first = 0", GROUP], ConfKey::First),
    ([TOP, "age = 4294967296", GROUP], ConfKey::Age),
    ([TOP, "cap = 268435457", GROUP], ConfKey::Cap),
    ([TOP, "cap = \"9\"", GROUP], ConfKey::Cap),
    ([TOP, "cap = 9.0", GROUP], ConfKey::Cap),
    ([TOP, "sessions = 65", GROUP], ConfKey::Sessions),
    (["site = 1", "", GROUP], ConfKey::Copies),
    (["site = 1\ncopies = 1", "", GROUP], ConfKey::Copies),
    (["site = 1\ncopies = [2]", "", GROUP], ConfKey::Copies),
    (["site = 1\ncopies = [1, 1]", "", GROUP], ConfKey::Copies),
    (["site = 1\ncopies = []", "", GROUP], ConfKey::Copies),
    ([TOP, "", ""], ConfKey::Copies),
    ([TOP, "group = 1", ""], ConfKey::Copies),
    ([TOP, GROUP, "[group.5]"], ConfKey::Group),
    ([TOP, GROUP, "[group.01]"], ConfKey::Group),
    ([TOP, "group.2 = 7", GROUP], ConfKey::Group),
    ([TOP, "tapes = 1", GROUP], ConfKey::Unknown),
];

const VOLUMES: ConfKey = ConfKey::GroupVolumes { group: FIRST };

const SIZE: ConfKey = ConfKey::GroupSize { group: FIRST };

const OF_A_GROUP: [Refused; 16] = [
    (
        [TOP, GROUP, "drives = 1"],
        ConfKey::GroupDrives { group: FIRST },
    ),
    (
        [TOP, GROUP, "chunk = 63"],
        ConfKey::GroupChunk { group: FIRST },
    ),
    (
        [TOP, GROUP, "sparse = 101"],
        ConfKey::GroupSparse { group: FIRST },
    ),
    (
        [TOP, GROUP, "hold = -1"],
        ConfKey::GroupHold { group: FIRST },
    ),
    ([TOP, "[group.1]\nsize = 424", ""], VOLUMES),
    ([TOP, "[group.1]\nsize = 424\nvolumes = []", ""], VOLUMES),
    (
        [TOP, "[group.1]\nsize = 424\nvolumes = [\"aa0001\"]", ""],
        VOLUMES,
    ),
    (
        [TOP, "[group.1]\nsize = 424\nvolumes = [\"AA00012\"]", ""],
        VOLUMES,
    ),
    (
        [
            TOP,
            "[group.1]\nsize = 424\nvolumes = [\"AA0001\", \"AA0001\"]",
            "",
        ],
        VOLUMES,
    ),
    ([TOP, "[group.1]\nvolumes = [\"AA0001\"]", ""], SIZE),
    (
        [TOP, "[group.1]\nvolumes = [\"AA0001\"]", "\nsize = 255"],
        SIZE,
    ),
    (
        [
            TOP,
            "[group.1]\nvolumes = [\"AA0001\"]",
            "\nsize = 67108865",
        ],
        SIZE,
    ),
    (
        [
            TOP,
            "[group.1]\nvolumes = [\"A00001\", \"A00002\", \"A00003\", \"A00004\", \"A00005\"]\n",
            "size = 67108864",
        ],
        SIZE,
    ),
    (
        [TOP, GROUP, "format = 3"],
        ConfKey::GroupFormat { group: FIRST },
    ),
    ([TOP, GROUP, "colour = 3"], ConfKey::Unknown),
    (
        [TOP, GROUP, "[group.2]\nvolumes = [\"AA0001\"]\nsize = 424"],
        ConfKey::GroupVolumes { group: GroupId(2) },
    ),
];

const SMALL_TOP: &str = "site = 1\ncap = 10\ncopies = [1]";

const OF_SPACE: [Refused; 7] = [
    ([SMALL_TOP, GROUP, "[space]\nhigh = 11"], ConfKey::SpaceHigh),
    (
        [SMALL_TOP, GROUP, "[space]\nhigh = 5\nlow = 6"],
        ConfKey::SpaceLow,
    ),
    (
        [SMALL_TOP, GROUP, "[space]\nahead = 11"],
        ConfKey::SpaceAhead,
    ),
    (
        [SMALL_TOP, GROUP, "[space]\nage_weight = 1000001"],
        ConfKey::SpaceAgeWeight,
    ),
    (
        [SMALL_TOP, GROUP, "[space]\nsize_weight = 1.5"],
        ConfKey::SpaceSizeWeight,
    ),
    ([SMALL_TOP, GROUP, "[space]\nwide = 1"], ConfKey::Unknown),
    ([SMALL_TOP, "\nspace = 1", GROUP], ConfKey::Unknown),
];

// Of two rows that are violated the first is the key, wherever they stand in the text.
const OF_TWO: [Refused; 5] = [
    (["tapes = 1\ncap = 0\nsite = 0", "", ""], ConfKey::Site),
    (["sessions = 0\nage = -1\n", TOP, GROUP], ConfKey::Age),
    (
        [TOP, GROUP, "format = 0\ndrives = 17"],
        ConfKey::GroupDrives { group: FIRST },
    ),
    (
        ["colour = 1\n", TOP, "[group.1]\n[group.2]\ndrives = 0"],
        VOLUMES,
    ),
    (
        [TOP, GROUP, "format = 0\n[space]\nhigh = -1"],
        ConfKey::GroupFormat { group: FIRST },
    ),
];

#[test]
fn rows_at_the_top(rt: HostRuntime) {
    for (parts, key) in AT_THE_TOP {
        assert!(rt; refuses(rt.alloc(), parts, key), "for {key:?}");
    }
}

#[test]
fn rows_of_a_group(rt: HostRuntime) {
    for (parts, key) in OF_A_GROUP {
        assert!(rt; refuses(rt.alloc(), parts, key), "for {key:?}");
    }
}

#[test]
fn rows_of_space(rt: HostRuntime) {
    for (parts, key) in OF_SPACE {
        assert!(rt; refuses(rt.alloc(), parts, key), "for {key:?}");
    }
}

#[test]
fn the_first_of_two(rt: HostRuntime) {
    for (parts, key) in OF_TWO {
        assert!(rt; refuses(rt.alloc(), parts, key), "for {key:?}");
    }
}

// Each row in its order: a line that meets it, one that violates it, and its key.
const ROWS: [(&str, &str, ConfKey); 20] = [
    ("site = 1\n", "site = -1\n", ConfKey::Site),
    (
        "first = 9223372036854775807\n",
        "first = 0\n",
        ConfKey::First,
    ),
    ("age = 4294967295\n", "age = 4294967296\n", ConfKey::Age),
    ("cap = 10\n", "cap = 0\n", ConfKey::Cap),
    ("sessions = 64\n", "sessions = 0\n", ConfKey::Sessions),
    ("copies = [2, 1]\n", "copies = [1, 3]\n", ConfKey::Copies),
    (
        "[group.2]\nvolumes = [\"BB0001\"]\nsize = 67108864\n[group.1]\n",
        "[group.2]\nvolumes = [\"BB0001\"]\nsize = 67108864\n[group.0]\n[group.1]\n",
        ConfKey::Group,
    ),
    (
        "drives = 16\n",
        "drives = 17\n",
        ConfKey::GroupDrives { group: FIRST },
    ),
    (
        "chunk = 4194304\n",
        "chunk = 4194305\n",
        ConfKey::GroupChunk { group: FIRST },
    ),
    (
        "sparse = 100\n",
        "sparse = 0\n",
        ConfKey::GroupSparse { group: FIRST },
    ),
    (
        "hold = 4294967295\n",
        "hold = 4294967296\n",
        ConfKey::GroupHold { group: FIRST },
    ),
    ("volumes = [\"AA0001\"]\n", "volumes = [1]\n", VOLUMES),
    ("size = 256\n", "size = 255\n", SIZE),
    (
        "format = 2\n",
        "format = 0\n",
        ConfKey::GroupFormat { group: FIRST },
    ),
    (
        "[space]\nhigh = 10\n",
        "[space]\nhigh = 11\n",
        ConfKey::SpaceHigh,
    ),
    ("low = 10\n", "low = -1\n", ConfKey::SpaceLow),
    ("ahead = 10\n", "ahead = 11\n", ConfKey::SpaceAhead),
    (
        "age_weight = 1000000\n",
        "age_weight = 1000001\n",
        ConfKey::SpaceAgeWeight,
    ),
    (
        "size_weight = 1000000\n",
        "size_weight = 1000001\n",
        ConfKey::SpaceSizeWeight,
    ),
    ("", "unknown = 1\n", ConfKey::Unknown),
];

// The text in which two rows are violated, which may be one, and all others met.
fn broken(alloc: Global, first: usize, second: usize) -> Result<String, AllocError> {
    let mut text = String::new(alloc);
    for (place, (met, violated, _)) in ROWS.iter().enumerate() {
        if place == first || place == second {
            text.push_str(violated)?;
        } else {
            text.push_str(met)?;
        }
    }
    Ok(text)
}

fn refuses_broken(alloc: Global, first: usize, second: usize, key: ConfKey) -> bool {
    match broken(alloc, first, second) {
        Ok(text) => is_refused(alloc, text.as_bytes(), key),
        Err(_) => false,
    }
}

fn reads_unbroken(alloc: Global) -> bool {
    match broken(alloc, ROWS.len(), ROWS.len()) {
        Ok(text) => read_config(alloc, text.as_bytes()).is_ok(),
        Err(_) => false,
    }
}

// Each row is violated alone, and with each row behind it.
#[test]
fn each_row_with_each_later_one(rt: HostRuntime) {
    assert!(rt; reads_unbroken(rt.alloc()));
    for (first, (_, _, key)) in ROWS.iter().enumerate() {
        for second in first..ROWS.len() {
            assert!(rt;
                refuses_broken(rt.alloc(), first, second, *key),
                "rows {first} and {second}"
            );
        }
    }
}

fn repeated(alloc: Global, piece: &str, times: usize) -> Result<String, AllocError> {
    let mut text = String::new(alloc);
    for _ in 0..times {
        text.push_str(piece)?;
    }
    Ok(text)
}

fn refuses_repeated(alloc: Global, piece: &str, times: usize, key: ConfKey) -> bool {
    match repeated(alloc, piece, times) {
        Ok(text) => is_refused(alloc, text.as_bytes(), key),
        Err(_) => false,
    }
}

fn refuses_digits(alloc: Global) -> bool {
    match repeated(alloc, "9", 60_000) {
        Ok(digits) => refuses(alloc, ["site = ", digits.as_str(), ""], ConfKey::Toml),
        Err(_) => false,
    }
}

// A text is refused with its key, whatever it is.
#[test]
fn hostile_texts(rt: HostRuntime) {
    let alloc = rt.alloc();
    assert!(rt; refuses_repeated(alloc, "#", 65_537, ConfKey::Length));
    assert!(rt; refuses_repeated(alloc, "#", 65_536, ConfKey::Site));
    assert!(rt; refuses_repeated(alloc, "[", 65_000, ConfKey::Toml));
    assert!(rt; refuses_digits(alloc));
    assert!(rt; refuses(alloc, [TOP, TOP, GROUP], ConfKey::Toml));
    assert!(rt; is_refused(alloc, b"site = 1\xff", ConfKey::Toml));
    assert!(rt; refuses(alloc, ["\"\\u0073ite\" = 0\n", "", GROUP], ConfKey::Site));
}
