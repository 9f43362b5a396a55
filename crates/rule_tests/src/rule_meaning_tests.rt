//! Kleene's connectives, by their tables, and how wide rules are.
use entry_order::Three;
use roster::Role;
use rule_language::{Kind, Row, read};
use rule_meaning::kleene::{both, either, opposite};
use rule_meaning::width::is_too_wide;
use std::alloc::Global;
use std::test::Fail;

/// Two values, and then the second one's opposite, both and either, by the strong tables of
/// S. C. Kleene, "Introduction to Metamathematics" (1952), section 64.
const TABLES: &str = "\
TTFTT
TUUUT
TFTFT
UTFUT
UUUUU
UFTFU
FTFFT
FUUFU
FFTFF";

fn value_of(letter: Option<char>) -> Three {
    match letter {
        Some('T') => Three::True,
        Some('F') => Three::False,
        _ => Three::Unknown,
    }
}

#[test]
fn connectives_are_kleenes(rt: HostRuntime) -> Result<(), Fail> {
    for row in TABLES.lines() {
        let mut letters = row.chars();
        let x = value_of(letters.next());
        let y = value_of(letters.next());
        assert_eq!(rt; opposite(y), value_of(letters.next()), "not, {row}");
        assert_eq!(rt; both(x, y), value_of(letters.next()), "and, {row}");
        assert_eq!(rt; either(x, y), value_of(letters.next()), "or, {row}");
    }
    Ok(())
}

/// So many rows of openings, and one of a closing.
fn rows_of(alloc: Global, openings: usize) -> Result<Vec<Row>, Fail> {
    let row = Row {
        kind: Kind::Opened,
        maker: 0,
        role: Role::Supervisor,
        number: 0,
        session: 0,
        ballot: [0; 32],
        booth: 0,
    };
    let mut rows = vec![in alloc; row; openings]?;
    rows.push(Row {
        kind: Kind::Closed,
        ..row
    })?;
    Ok(rows)
}

/// How many openings there are, whether the rule is too wide, and the rule. The limit 268,435,456
/// is 128 to the fourth power, and 16,384 to the second.
const WIDTHS: &str = "\
127 no (rule R (every x entry (every y entry (every z entry (some w entry true)))))
128 yes (rule R (every x entry (every y entry (every z entry (some w entry true)))))
127 no (rule R (every x opened (every y entry before x (every z opened (some w opened true)))))
128 yes (rule R (every x opened (every y entry before x (every z opened (some w opened true)))))
128 no (rule R (every x opened (every y opened (every z opened (some w opened true)))))
129 yes (rule R (every x opened (every y opened (every z opened (some w opened true)))))
129 no (rule R (every x opened (every y closed (every z opened (some w opened true)))))
16384 no (rule R (and (every x opened (every y opened true)) (every x opened true)))
16385 yes (rule R (and (every x opened true) (every x opened (not (every y opened true)))))
16385 no (rule R (every x opened true))";

#[test]
fn a_rule_is_too_wide_above_the_limit(rt: HostRuntime) -> Result<(), Fail> {
    let alloc = rt.alloc();
    for row in WIDTHS.lines() {
        let (openings, rest) = row.split_once(' ').unwrap_or(("", ""));
        let (answer, text) = rest.split_once(' ').unwrap_or(("", ""));
        let rows = rows_of(alloc, openings.parse().unwrap_or(0))?;
        for rule in &read(alloc, text.as_bytes())? {
            let wide = is_too_wide(&rule.body, 1, &rows);
            assert_eq!(rt; wide, answer == "yes", "{row}");
        }
    }
    Ok(())
}
