//! What a file may have at most.
use crate::conf::{Reading, read};
use std::alloc::Global;
use std::test::Fail;
use up_text_tests::tables::{Long, long_text};

// A long file, its size if that is limited, and what it is read as.
struct Large {
    name: &'static str,
    text: Long,
    size: Option<usize>,
    reading: Reading,
}

// At each limit a file and the next larger one.
const LARGE: &'static [Large] = &[
    Large {
        name: "longest",
        text: ("task\n###########", "################", 65_535, "", 0),
        size: Some(1_048_576),
        reading: Ok(1),
    },
    Large {
        name: "too long",
        text: ("task\n###########", "################", 65_535, "#", 0),
        size: None,
        reading: Err((1, 16)),
    },
    Large {
        name: "most keys that are set",
        text: ("", "env A\n", 30_000, "", 0),
        size: None,
        reading: Ok(30_000),
    },
    Large {
        name: "too many keys that are set",
        text: ("", "env A\n", 30_000, "env B\nbogus\n", 0),
        size: None,
        reading: Err((1, 16)),
    },
    Large {
        name: "most keys that are exported",
        text: ("task\nexport", " A", 30_000, "", 0),
        size: None,
        reading: Ok(2),
    },
    Large {
        name: "too many keys that are exported",
        text: ("task\nexport", " A", 30_000, "\nexport B", 0),
        size: None,
        reading: Err((1, 16)),
    },
    // Keys after an unreadable stanza don't count.
    Large {
        name: "keys behind an unreadable stanza",
        text: ("task\nbogus\n", "env A\n", 30_001, "", 0),
        size: None,
        reading: Err((2, 1)),
    },
    Large {
        name: "most words",
        text: ("task\nexec", " w", 65_535, "", 0),
        size: None,
        reading: Ok(2),
    },
    Large {
        name: "too many words",
        text: ("task\nexec", " w", 65_535, " w", 0),
        size: None,
        reading: Err((2, 16)),
    },
    Large {
        name: "largest expression",
        text: ("task\nstart on a", " or a", 2_047, "", 0),
        size: None,
        reading: Ok(2),
    },
    Large {
        name: "too large an expression",
        text: ("task\nstart on a", " or a", 2_047, " and a", 0),
        size: None,
        reading: Err((2, 16)),
    },
    Large {
        name: "too many parentheses",
        text: ("task\nstart on ", "(", 257, "a", 257),
        size: None,
        reading: Err((2, 16)),
    },
];

fn check(alloc: Global, cases: &[Large]) -> Result<(), Fail> {
    for case in cases {
        let text = long_text(alloc, &case.text)?;
        let reading = read(alloc, text.as_bytes());
        let size = text.len();
        drop(text);
        if reading != case.reading || case.size.unwrap_or(size) != size {
            return Err(Fail::from(case.name));
        }
    }
    Ok(())
}

#[test]
fn files_are_limited(rt: HostRuntime) -> Result<(), Fail> {
    check(rt.alloc(), LARGE)
}
