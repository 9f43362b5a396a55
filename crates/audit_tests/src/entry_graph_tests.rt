use entry_format::Sealed;
use entry_graph::{Graph, GraphFault, SignedText};
use entry_order::Knot;
use precedence::Arrows;
use std::alloc::{AllocError, Global};
use std::test::Fail;

/// An entry with a text of one byte.
#[derive(Debug, Drop)]
struct Small {
    digest: [u8; 32],
    names: Vec<[u8; 32]>,
    maker: u32,
    number: u32,
    stamp: u32,
    text: [u8; 1],
}

impl Knot for Small {
    ghost use Rattle.entry_order.specs.Node.{Node};

    ghost node = { λ e. record {
      digest = e.digest;
      names = e.names.items;
      maker = e.maker;
      number = e.number;
      stamp = e.stamp;
    } };

    fn digest(&self) -> &[u8; 32] {
        &self.digest
    }

    fn names(&self) -> &[[u8; 32]] {
        &self.names
    }

    fn maker(&self) -> u32 {
        self.maker
    }

    fn number(&self) -> u32 {
        self.number
    }

    fn stamp(&self) -> u32 {
        self.stamp
    }
}

impl SignedText for Small {
    ghost text = { λ e. e.text };

    fn signed_text(&self) -> &[u8] {
        &self.text
    }
}

/// The entry that a word gives: the letters of its digest and its text, its maker, number and stamp
/// as digits, and the letters of the digests that it names.
fn entry_of(alloc: Global, word: &[u8]) -> Result<Small, AllocError> {
    let digit = |at: usize| word
        .get(at)
        .map_or(0, |byte| u32::from(byte.saturating_sub(b'0')));
    let letter = |at: usize| word.get(at).copied().unwrap_or(b'?');
    let mut names = Vec::new(alloc);
    for byte in word.iter().skip(5) {
        names.push([*byte; 32])?;
    }
    Ok(Small {
        digest: [letter(0); 32],
        text: [letter(1)],
        maker: digit(2),
        number: digit(3),
        stamp: digit(4),
        names,
    })
}

/// The entries of words with a space between.
fn entries(alloc: Global, words: &str) -> Result<Vec<Small>, AllocError> {
    let mut entries = Vec::new(alloc);
    for word in words.as_bytes().split(|byte| *byte == b' ') {
        entries.push(entry_of(alloc, word)?)?;
    }
    Ok(entries)
}

/// The letters of digests.
fn push_letters(shown: &mut Vec<u8>, digests: &[[u8; 32]]) -> Result<(), AllocError> {
    for digest in digests {
        shown.push(digest[0])?;
    }
    Ok(())
}

/// The last digit of a number.
fn push_digit(shown: &mut Vec<u8>, number: u32) -> Result<(), AllocError> {
    shown.push(b'0' + (number % 10) as u8)?;
    Ok(())
}

/// The digest of each survivor, the numbers of those that it names, and `?` where it names a gap;
/// then the gaps, the strays, and the forks by maker and number.
fn shown(alloc: Global, graph: &Graph<Small>) -> Result<Vec<u8>, AllocError> {
    let mut shown = Vec::new(alloc);
    for node in 0..graph.count() {
        shown.push(graph.node(node).digest()[0])?;
        for parent in graph.parents(node) {
            push_digit(&mut shown, *parent)?;
        }
        if graph.ragged(node) {
            shown.push(b'?')?;
        }
        shown.push(b' ')?;
    }
    shown.extend_from_slice(b"gaps ")?;
    push_letters(&mut shown, graph.gaps())?;
    shown.extend_from_slice(b" strays ")?;
    push_letters(&mut shown, graph.strays())?;
    shown.extend_from_slice(b" forks")?;
    for (maker, number) in graph.forks() {
        shown.push(b' ')?;
        push_digit(&mut shown, *maker)?;
        push_digit(&mut shown, *number)?;
    }
    Ok(shown)
}

/// The letters of the digests and texts of two entries that collide.
fn letters_of(alloc: Global, first: &Small, second: &Small) -> Result<Vec<u8>, AllocError> {
    let letters = [
        first.digest[0],
        first.text[0],
        b' ',
        second.digest[0],
        second.text[0],
    ];
    Vec::from_slice(alloc, &letters)
}

/// What is shown of the graph of entries, or of the two that collide.
fn told(alloc: Global, words: &str) -> Result<Vec<u8>, AllocError> {
    match Graph::make(alloc, entries(alloc, words)?) {
        Ok(graph) => shown(alloc, &graph),
        Err(GraphFault::Collision(first, second)) => letters_of(alloc, &first, &second),
        Err(_) => Ok(Vec::new(alloc)),
    }
}

/// Entries, and what is shown of their graph or of the two that collide.
const GRAPHS: &[(&str, &str)] = &[
    // A chain, given backwards and with an entry twice.
    ("cC013b bB102a aA001 bB102a", "a b0 c1 gaps  strays  forks"),
    // Equal stamps go by digest, and a gap is reported once.
    ("bB101x aA001x", "a? b? gaps x strays  forks"),
    // A stray names an entry with its own stamp, here itself, or a later one. It has no gaps.
    ("aA001a bB002cx cC102", "c gaps  strays ab forks"),
    // What names a stray's digest names a gap; strays are judged over all that are given.
    ("aA002b bB103 cC204a", "b c? gaps a strays a forks"),
    ("aA002bc bB102a cC204a", "c? gaps a strays ab forks"),
    // Two survivors of one maker with one number are a fork, and a stray or an equal one is none.
    (
        "aA001 bB002 cC103 cC103 dD204 eE204e",
        "a b c d gaps  strays e forks 00",
    ),
    (
        "aA111 bB112 cC113 dD003 eE004",
        "a b c d e gaps  strays  forks 00 11",
    ),
    // The first that collides is reported, with the one before it.
    ("aA001 bB001 bX001 aY001", "bB bX"),
];

#[test]
fn graphs_of_a_few_entries(rt: HostRuntime) -> Result<(), Fail> {
    let alloc = rt.alloc();
    for (words, expected) in GRAPHS {
        let answer = told(alloc, words)?;
        assert!(rt; answer.as_slice() == expected.as_bytes(), "of {words}");
    }
    Ok(())
}

/// This many entries, no two with one digest, and the first once more.
fn many(alloc: Global, count: u32) -> Result<Vec<Small>, AllocError> {
    let mut entries = Vec::new(alloc);
    for n in 0..count {
        let mut entry = entry_of(alloc, b"aA001")?;
        entry.digest[..4].copy_from_slice(&n.to_be_bytes());
        entry.number = n;
        entries.push(entry)?;
    }
    let mut first = entry_of(alloc, b"aA001")?;
    first.digest[..4].copy_from_slice(&[0; 4]);
    entries.push(first)?;
    Ok(entries)
}

#[test]
fn a_graph_has_at_most_16_384_entries(rt: HostRuntime) -> Result<(), Fail> {
    let alloc = rt.alloc();
    assert!(rt;
        Graph::make(alloc, many(alloc, 16_384)?).is_ok_and(|graph| graph.count() == 16_384)
    );
    let refused = Graph::make(alloc, many(alloc, 16_385)?);
    assert!(rt; matches!(refused, Err(GraphFault::TooMany)));
    Ok(())
}

#[test]
fn no_sealed_entry_has_the_empty_graph(rt: HostRuntime) -> Result<(), Fail> {
    let alloc = rt.alloc();
    let none: Vec<Sealed> = Vec::new(alloc);
    let graph: Graph = match Graph::make(alloc, none) {
        Ok(graph) => graph,
        Err(_) => return Ok(()),
    };
    assert!(rt; graph.count() == 0 && graph.gaps().is_empty());
    Ok(())
}
