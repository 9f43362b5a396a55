use crate::graphs::{graph_of, reading_of, text_of, written};
use std::alloc::Global;
use std::test::Fail;

/// Four nodes: the last names the second and the third, which name the first.
const DIAMOND: &str = ",0,0,2 1";

/// What is answered of texts, whose first two lines have faults. A bar is a newline.
const HEADS: &str = "1 Form:
1 Form:proof 1
1 Form:proof 2|
1 Form:proof  1|
1 Form:proof 1 |
1 Form: proof 1|
1 Form:proof 01|
1 Form:|proof 1|
2 Form:proof 1|
2 Form:proof 1|entries|
2 Form:proof 1|entries |
2 Form:proof 1|entrie 4|
2 Form:proof 1|entries 04|
2 Form:proof 1|entries 4294967296|
2 Form:proof 1|entries +4|
2 Form:proof 1|entries  4|
2 WrongCount:proof 1|entries 5|
2 WrongCount:proof 1|entries 5
2 WrongCount:proof 1|entries 5 x|
2 WrongCount:proof 1|entries 3 |
2 Form:proof 1|entries 4
2 Form:proof 1|entries 4 |
2 Form:proof 1|entries 4 x|
0 lines:proof 1|entries 4|";

/// The answers to what follows the first two lines.
const LINES: &str = "3 Form:|
3 Form:past|
3 Form:past |
3 Form:past x|
3 Form:Past 1|
3 Form:past  1|
3 Form:past 01|
3 Form:past 4294967296|
3 Form:past 4294967296 0:1|
3 OutOfRange:past 4294967295|
3 OutOfRange:past 4 x|
3 OutOfRange:past 4
4 NotRising:past 0|past 0|
4 NotRising:past 1 0:1|past 0|
4 NotRising:past 2 0:2|past 1 x|
4 NotRising:past 2 0:2|past 2
4 OutOfRange:past 2 0:2|past 4|
3 Form:past 1 0|
3 Form:past 1 0:1:1|
3 Form:past 1 :1|
3 Form:past 1 0:|
3 Form:past 1 00:1|
3 Form:past 1 0:01|
3 Form:past 1  0:1|
3 Form:past 1 0:1 |
3 Form:past 1 9:4294967296|
3 Form:past 1 x:9|
3 OutOfRange:past 1 4:1|
3 OutOfRange:past 1 0:4|
3 OutOfRange:past 3 2:3 2:4|
3 NotFalling:past 3 2:3 2:1|
3 NotFalling:past 3 1:3 2:3|
3 NotFalling:past 3 2:3 3:0|
3 NotReached:past 3 2:3 0:1|
3 NotReached:past 3 2:1|
3 NotParent:past 3 2:3 1:2|
3 NotParent:past 1 1:1|
3 NotParent:past 3 0:3|
3 Form:past 3 2:3 0:2
3 NotClosed:past 3 2:3 0:2|
3 NotClosed:past 3 2:3 1:3|
3 NotClosed:past 1|
3 NotReached:past 3 2:2 x|
3 NotReached:past 3 2:3 0:1 x|
4 NotClosed:past 0|past 3|past 9|
6 NotRising:past 0|past 1 0:1|past 3 2:3 1:3 0:2|past 2 0:2|
6 Form:past 0|past 1 0:1|past 2 0:2|past 3 2:3 1:3 0:2
7 Form:past 0|past 1 0:1|past 2 0:2|past 3 2:3 1:3 0:2||
7 Form:past 0|past 1 0:1|past 2 0:2|past 3 2:3 1:3 0:2|end
7 NotRising:past 0|past 1 0:1|past 2 0:2|past 3 2:3 1:3 0:2|past 3 2:3 1:3 0:2|
7 OutOfRange:past 0|past 1 0:1|past 2 0:2|past 3 2:3 1:3 0:2|past 4|
1 lines:past 3 2:3 1:3 0:1|
2 lines:past 0|past 3 2:3 1:3 0:2|
4 lines:past 0|past 1 0:1|past 2 0:2|past 3 2:3 1:3 0:1|";

/// Whether what is read of a row's text, put after the other, is the row's first part.
fn is_read_so(alloc: Global, head: &str, row: &str) -> Result<bool, Fail> {
    let Some((want, text)) = row.split_once(':') else {
        return Ok(false);
    };
    let graph = graph_of(alloc, DIAMOND, 4)?;
    let text = format!(in alloc; "{head}{text}")?;
    let text = text_of(alloc, text.as_str())?;
    Ok(reading_of(alloc, &graph, &text)?.as_str() == want)
}

#[test]
fn the_first_two_lines_have_their_faults(rt: HostRuntime) -> Result<(), Fail> {
    for row in HEADS.split('\n') {
        assert!(rt; is_read_so(rt.alloc(), "", row)?, "{row}");
    }
    Ok(())
}

#[test]
fn the_first_fault_of_the_lines_is_answered(rt: HostRuntime) -> Result<(), Fail> {
    for row in LINES.split('\n') {
        assert!(rt; is_read_so(rt.alloc(), "proof 1|entries 4|", row)?, "{row}");
    }
    Ok(())
}

/// Graphs, as the parents that their nodes list, with their canonical texts.
const WRITTEN: &[(&str, &str, &str)] = &[
    ("", "proof 1|entries 1|past 0|", "1 lines"),
    (
        DIAMOND,
        "proof 1|entries 4|past 0|past 1 0:1|past 2 0:2|past 3 2:3 1:3 0:2|",
        "4 lines",
    ),
    (
        ",0,1,2,3,4",
        "proof 1|entries 6|past 0|past 1 0:1|past 2 1:2 0:1|past 3 2:3 1:2 0:1|\
         past 4 3:4 2:3 1:2 0:1|past 5 4:5 3:4 2:3 1:2 0:1|",
        "6 lines",
    ),
];

/// Whether this is written of the graph, and is then read as that.
fn is_written_so(alloc: Global, lists: &str, want: &str, read: &str) -> Result<bool, Fail> {
    let graph = graph_of(alloc, lists, usize::MAX)?;
    let text = written(alloc, &graph)?;
    let same = text.as_slice() == text_of(alloc, want)?.as_slice();
    Ok(same && reading_of(alloc, &graph, &text)?.as_str() == read)
}

#[test]
fn canonical_texts_are_written_and_read(rt: HostRuntime) -> Result<(), Fail> {
    for &(lists, want, read) in WRITTEN {
        assert!(rt; is_written_so(rt.alloc(), lists, want, read)?, "{lists}");
    }
    Ok(())
}
