//! The lines of a whole base.

ghost use Rattle.std.specs.Prelude.{◌≡◌, ℕ, ◌<◌, ◌≤◌, List, ◌++◌, length, IfOk, IfErr, MatchOption, MatchBool};
ghost use Rattle.rule_machine.specs.declared.base.NodeRecord.{NodeRecord as PlaceKept};
ghost use Rattle.line_text.specs.BaseText.{node_record_text, link_text};
ghost use Rattle.entry_grammar.specs.declared.base_line.BaseLine.{BaseLine as Line};
ghost use Rattle.entry_grammar.specs.declared.base_line.BaseLine.TheVariants.{Base as LineOfNumbers, Link};
ghost use Rattle.entry_grammar.specs.declared.base_line.BaseNumbers.{BaseNumbers};
ghost use Rattle.entry_grammar.specs.declared.fault.BaseFault.TheVariants.{BadLine};
ghost use Rattle.entry_grammar.specs.Spelling.{AreCounts, IsBaseLine, IsOrderedPair, base_line_text, numbers_text};
ghost use Rattle.entry_grammar.specs.Parsing.{Starts};
ghost use Rattle.entry_grammar.specs.BaseLines.{IsEdgeAbove, IsPlace, IsShaped, base_lines, BreaksAt, place_line};
ghost use Rattle.entry_grammar.specs.BaseParts.{NodesRead, NodesBreak, EdgesRead, EdgesBreak};

use crate::base_line::{BaseLine, BaseNumbers, read_base_line};
use crate::fault::BaseFault;
use byte_streams::split_line;
use rule_machine::{Base, Edge, Listing, NodeRecord};
use std::alloc::Global;

// Reads the first line and its LF; returns the line and the rest.
fn next_line(bytes: &[u8]) -> Option<(BaseLine, &[u8])>
    ensures { MatchOption result
        ((line : Line) (more : List ℕ) → Starts IsBaseLine base_line_text bytes.now line more → ⊥)
        (λ found. Starts IsBaseLine base_line_text bytes.now found.0 found.1.now) }
{
    let (text, rest) = split_line(bytes)?;
    match read_base_line(text) {
        Ok(line) => Some((line, rest)),
        Err(_) => None,
    }
}

fn numbers_of(line: BaseLine) -> Option<BaseNumbers>
    ensures { MatchOption result ((q : BaseNumbers) → line ≡ LineOfNumbers q → ⊥) (λ q. line ≡ LineOfNumbers q) }
{
    match line {
        BaseLine::Base(numbers) => Some(numbers),
        _ => None,
    }
}

fn next_numbers(bytes: &[u8]) -> Option<(BaseNumbers, &[u8])>
    ensures { MatchOption result
        ((q : BaseNumbers) (more : List ℕ) → Starts AreCounts numbers_text bytes.now q more → ⊥)
        (λ found. Starts AreCounts numbers_text bytes.now found.0 found.1.now) }
{
    let Some((line, rest)) = next_line(bytes) else {
        return None;
    };
    let numbers = numbers_of(line)?;
    Some((numbers, rest))
}

fn place_of(line: BaseLine) -> Option<NodeRecord>
    ensures { MatchOption result ((place : PlaceKept) → line ≡ place_line place → ⊥) (λ place. line ≡ place_line place) }
{
    match line {
        BaseLine::Place(node, target, flagged) => Some(NodeRecord {
            node,
            target,
            flagged,
        }),
        _ => None,
    }
}

fn edge_of(line: BaseLine) -> Option<Edge>
    ensures { MatchOption result ((edge : ℕ × ℕ) → line ≡ Link edge → ⊥) (λ edge. line ≡ Link edge) }
{
    match line {
        BaseLine::Link(edge) => Some(edge),
        _ => None,
    }
}

fn next_node(bytes: &[u8], last: u32) -> Option<(NodeRecord, &[u8])>
    ensures { MatchOption result
        ((place : PlaceKept) (more : List ℕ) → last < place.node → Starts IsPlace node_record_text bytes.now place more → ⊥)
        (λ found. (last < found.0.node) × Starts IsPlace node_record_text bytes.now found.0 found.1.now) }
{
    let Some((line, rest)) = next_line(bytes) else {
        return None;
    };
    let place = place_of(line)?;
    if place.node.name() <= last {
        return None;
    }
    Some((place, rest))
}

fn ends(edge: Edge) -> (u32, u32)
    ensures { result ≡ edge }
{
    (edge.low().name(), edge.high().name())
}

// Whether an edge comes after `last` in the order of a base.
fn is_above(last: (u32, u32), edge: Edge) -> bool
    ensures { MatchBool result (IsEdgeAbove last edge) (IsEdgeAbove last edge → ⊥) }
{
    let low = edge.low().name();
    last.0 < low || last.0 == low && last.1 < edge.high().name()
}

fn next_edge(bytes: &[u8], last: (u32, u32)) -> Option<(Edge, &[u8])>
    ensures { MatchOption result
        ((edge : ℕ × ℕ) (more : List ℕ) → IsEdgeAbove last edge → Starts IsOrderedPair link_text bytes.now edge more → ⊥)
        (λ found. IsEdgeAbove last found.0 × Starts IsOrderedPair link_text bytes.now found.0 found.1.now) }
{
    let Some((line, rest)) = next_line(bytes) else {
        return None;
    };
    let edge = edge_of(line)?;
    if !is_above(last, edge) {
        return None;
    }
    Some((edge, rest))
}

// Reads `count` nodes, from line 2 on.
fn read_nodes<'a>(
    alloc: Global,
    bytes: &'a [u8],
    count: u32,
) -> Result<(Vec<NodeRecord>, &'a [u8]), BaseFault>
    ensures read { IfOk result (λ found. NodesRead bytes.now found.0.items found.1.now) }
    ensures all { IfOk result (λ found. length found.0.items ≡ count) }
    ensures bad { IfErr result (λ fault. (k : ℕ) → fault ≡ BadLine k → NodesBreak bytes.now count k) }
{
    let mut places = Vec::new(alloc);
    let mut last = 0;
    let mut rest = bytes;
    for i in 0..count {
        let Some((place, behind)) = next_node(rest, last) else {
            return Err(BaseFault::BadLine(u64::from(i) + 2));
        };
        last = place.node.name();
        if places.push(place).is_err() {
            return Err(BaseFault::Memory);
        }
        rest = behind;
    }
    Ok((places, rest))
}

// Reads `count` edges, from line `first` on.
fn read_edges<'a>(
    alloc: Global,
    bytes: &'a [u8],
    count: u32,
    first: u64,
) -> Result<(Vec<Edge>, &'a [u8]), BaseFault>
    requires { first ≤ 4294967297 }
    ensures read { IfOk result (λ found. EdgesRead bytes.now found.0.items found.1.now) }
    ensures all { IfOk result (λ found. length found.0.items ≡ count) }
    ensures bad { IfErr result (λ fault. (k : ℕ) → fault ≡ BadLine k → EdgesBreak bytes.now count first k) }
{
    let mut edges = Vec::new(alloc);
    let mut last = (0, 0);
    let mut rest = bytes;
    for i in 0..count {
        let Some(found) = next_edge(rest, last) else {
            return Err(BaseFault::BadLine(first + u64::from(i)));
        };
        last = ends(found.0);
        if edges.push(found.0).is_err() {
            return Err(BaseFault::Memory);
        }
        rest = found.1;
    }
    Ok((edges, rest))
}

/// Reads the lines of a base after its first line, each with its LF; returns the base and the rest.
/// The line that comes first says how many nodes and how many edges follow, both ascending.
/// Errors: `BadLine` with the number of the first line that is wrong or missing; `Memory` if memory runs out
/// before that line. Line 1 is the line after the base's first line.
/// One look at each line. Takes memory only for what was read, whatever the numbers say.
pub fn read_base<'a>(alloc: Global, bytes: &'a [u8]) -> Result<(Base, &'a [u8]), BaseFault>
    ensures base { IfOk result (λ found. bytes.now ≡ base_lines found.0 ++ found.1.now) }
    ensures shaped { IfOk result (λ found. IsShaped found.0) }
    ensures bad { IfErr result (λ fault. (k : ℕ) → fault ≡ BadLine k → BreaksAt bytes.now k) }
{
    let Some((numbers, rest)) = next_numbers(bytes) else {
        return Err(BaseFault::BadLine(1));
    };
    let (nodes, rest) = read_nodes(alloc, rest, numbers.nodes)?;
    let (edges, rest) = read_edges(alloc, rest, numbers.edges, u64::from(numbers.nodes) + 2)?;
    let base = Base {
        number: numbers.number,
        spent: numbers.spent,
        nodes: Listing::from_vec(nodes),
        edges: Listing::from_vec(edges),
    };
    Ok((base, rest))
}
