//! Whole texts with their refusals, of which `texts/refused.txt` has more.
use crate::read;
use mn_language::{one_instance, one_verdict};
use mn_model::{Refusal, Which};
use std::alloc::{AllocError, Global};
use std::test::Fail;

// How many variables, constraints and tuple lists a text has.
fn counts(alloc: Global, text: &str) -> Result<(u32, usize, usize), Refusal> {
    let inst = read(alloc, text.as_bytes())?;
    Ok((inst.vars(), inst.cons().len(), inst.tuples().len()))
}

#[test]
fn whole_texts(rt: HostRuntime) {
    for (text, wanted) in [
        ("MINION 3 **EOF**", Ok((0, 0, 0))),
        ("MINION 03**EOF** anything \u{e9}", Ok((0, 0, 0))),
        (
            "# why\nMINION 3\n**VARIABLES**\nBOOL x[2]\n**EOF**",
            Ok((2, 0, 0)),
        ),
        // sections in any order, and again
        (
            "MINION 3 **TUPLELIST** t 1 1 0 **VARIABLES** BOOL x **TUPLELIST** u 0 2 **VARIABLES** BOUND y {1..9} **EOF**",
            Ok((2, 0, 2)),
        ),
        (
            "MINION 3 **VARIABLES** BOOL x BOOL y **CONSTRAINTS** eq(x,y) **VARIABLES** **CONSTRAINTS** diseq(x,!y) **EOF**",
            Ok((2, 2, 0)),
        ),
        (
            "MINION 3 **VARIABLES** BOOL x **SEARCH** VARORDER [x] **CONSTRAINTS** **SEARCH** VALORDER [d] PRINT NONE **EOF**",
            Ok((1, 0, 0)),
        ),
        // the first two tokens
        ("", Err(Refusal::Syntax(0))),
        ("MINION", Err(Refusal::Syntax(6))),
        ("MINION 3", Err(Refusal::Syntax(8))),
        ("MINION 2 **EOF**", Err(Refusal::Unsupported(7))),
        ("minion 3 **EOF**", Err(Refusal::Unsupported(0))),
        ("[ 3 **EOF**", Err(Refusal::Syntax(0))),
        // heads
        ("MINION 3 **HEAD**", Err(Refusal::Unsupported(9))),
        ("MINION 3 BOOL x", Err(Refusal::Unsupported(9))),
        (
            "MINION 3 **TUPLELIST** **HEAD**",
            Err(Refusal::Unsupported(23)),
        ),
        ("MINION 3 **VARIABLES** BOOL x", Err(Refusal::Syntax(29))),
        ("MINION 3 **VARIABLES** ?", Err(Refusal::Lex(23))),
        (
            "MINION 3 **TUPLELIST** t 1 1 1000000001",
            Err(Refusal::NumberRange(29)),
        ),
        // what one section says, another knows
        (
            "MINION 3 **VARIABLES** BOOL x **TUPLELIST** **VARIABLES** BOOL x **EOF**",
            Err(Refusal::Name(63)),
        ),
        (
            "MINION 3 **TUPLELIST** t 16777216 1",
            Err(Refusal::Syntax(35)),
        ),
        (
            "MINION 3 **TUPLELIST** t 16777217 1",
            Err(Refusal::Limit(Which::Cells, 25)),
        ),
        (
            "MINION 3 **SEARCH** PRINT ALL **VARIABLES** **SEARCH** PRINT NONE **EOF**",
            Err(Refusal::Shape(55)),
        ),
        (
            "MINION 3 **SEARCH** VARORDER [] **SEARCH** VARORDER [] **EOF**",
            Err(Refusal::Unsupported(43)),
        ),
        (
            "MINION 3 **CONSTRAINTS** eq(x,0) **VARIABLES** BOOL x **EOF**",
            Err(Refusal::Name(28)),
        ),
        // numbers and names of tuple lists
        (
            "MINION 3 **TUPLELIST** t 1 2 0 **EOF**",
            Err(Refusal::Shape(31)),
        ),
        (
            "MINION 3 **TUPLELIST** t 1 1 0 7 **EOF**",
            Err(Refusal::Shape(31)),
        ),
        (
            "MINION 3 **TUPLELIST** t -1 1 **EOF**",
            Err(Refusal::Shape(25)),
        ),
        (
            "MINION 3 **TUPLELIST** t 1 0 **EOF**",
            Err(Refusal::Shape(27)),
        ),
        (
            "MINION 3 **TUPLELIST** t a 1 0 **EOF**",
            Err(Refusal::Syntax(25)),
        ),
        (
            "MINION 3 **TUPLELIST** u 0 1 t 1 2 0 u 1 1 0 **EOF**",
            Err(Refusal::Name(37)),
        ),
        // declarations: all values of a domain count once
        (
            "MINION 3 **VARIABLES** BOUND x {0..65536} **EOF**",
            Ok((1, 0, 0)),
        ),
        (
            "MINION 3 **VARIABLES** SPARSEBOUND x {0..65535,7,65536..70000} **EOF**",
            Err(Refusal::Limit(Which::Span, 49)),
        ),
        (
            "MINION 3 **VARIABLES** BOOL x {0..1} **EOF**",
            Err(Refusal::Syntax(30)),
        ),
        (
            "MINION 3 **VARIABLES** BOUND x[2] **EOF**",
            Err(Refusal::Syntax(34)),
        ),
        ("MINION 3 **VARIABLES** BOOL x[2", Err(Refusal::Syntax(31))),
        (
            "MINION 3 **VARIABLES** BOOL **FOO**",
            Err(Refusal::Syntax(28)),
        ),
        // aliases, which take no place and have no limit on their dimensions
        (
            "MINION 3 **VARIABLES** BOOL v[256,256] ALIAS a = v[0,0] **EOF**",
            Ok((65536, 0, 0)),
        ),
        (
            "MINION 3 **VARIABLES** BOOL x ALIAS a[1000000000,1000000000,1000000000] = x **EOF**",
            Err(Refusal::Shape(74)),
        ),
        (
            "MINION 3 **VARIABLES** BOOL x BOOL q[2] ALIAS q = x **EOF**",
            Err(Refusal::Name(46)),
        ),
        (
            "MINION 3 **VARIABLES** BOOL x ALIAS a[1,0] = x **EOF**",
            Err(Refusal::Shape(40)),
        ),
        (
            "MINION 3 **VARIABLES** BOOL q[2] ALIAS a = q",
            Err(Refusal::Syntax(44)),
        ),
        (
            "MINION 3 **VARIABLES** BOOL x ALIAS a = [x] **EOF**",
            Err(Refusal::Syntax(40)),
        ),
        (
            "MINION 3 **VARIABLES** BOOL x ALIAS a[1] = [3] **EOF**",
            Err(Refusal::Syntax(44)),
        ),
        // how to search
        (
            "MINION 3 **VARIABLES** BOOL x **SEARCH** MAXIMISING x MINIMISING x **EOF**",
            Err(Refusal::Shape(54)),
        ),
        (
            "MINION 3 **VARIABLES** BOOL q[2] **SEARCH** MAXIMISING q **EOF**",
            Err(Refusal::Shape(57)),
        ),
        (
            "MINION 3 **VARIABLES** BOOL q[2] **SEARCH** MAXIMISING q , **EOF**",
            Err(Refusal::Syntax(57)),
        ),
        (
            "MINION 3 **VARIABLES** BOOL x **SEARCH** PRINT x **EOF**",
            Err(Refusal::Unsupported(47)),
        ),
        (
            "MINION 3 **VARIABLES** BOOL x **SEARCH** x **EOF**",
            Err(Refusal::Unsupported(41)),
        ),
        // references, which end at a bracket or at what stands after a bare matrix
        (
            "MINION 3 **VARIABLES** BOOL m[2,3] **CONSTRAINTS** alldiff(m[-1,0]) **EOF**",
            Err(Refusal::Shape(61)),
        ),
        (
            "MINION 3 **VARIABLES** BOOL m[2,3] **CONSTRAINTS** alldiff([m) **EOF**",
            Err(Refusal::Syntax(61)),
        ),
        (
            "MINION 3 **VARIABLES** BOOL m[2,3] **CONSTRAINTS** alldiff([m? **EOF**",
            Err(Refusal::Lex(61)),
        ),
        (
            "MINION 3 **VARIABLES** BOOL b[40000] **CONSTRAINTS** element([b,b],b[0],b[1]) **EOF**",
            Err(Refusal::Limit(Which::Vector, 65)),
        ),
        // constraints
        (
            "MINION 3 **VARIABLES** BOOL x **CONSTRAINTS** true() ( **EOF**",
            Err(Refusal::Syntax(53)),
        ),
        (
            "MINION 3 **VARIABLES** BOOL x **CONSTRAINTS** eq(x,0, x) **EOF**",
            Err(Refusal::Syntax(52)),
        ),
        (
            "MINION 3 **VARIABLES** BOOL x **CONSTRAINTS** eq(x y) **EOF**",
            Err(Refusal::Syntax(51)),
        ),
        (
            "MINION 3 **VARIABLES** BOOL x **CONSTRAINTS** litsumgeq([x,x],[1],1) **EOF**",
            Err(Refusal::Shape(64)),
        ),
    ] {
        assert_eq!(rt; counts(rt.alloc(), text), wanted, "in {text:?}");
    }
}

// Adds so many of these bytes.
fn push_times(text: &mut Vec<u8>, bytes: &[u8], times: usize) -> Result<(), AllocError> {
    for _ in 0..times {
        text.extend_from_slice(bytes)?;
    }
    Ok(())
}

// A text with an alias of so many dimensions of 1.
fn deep(alloc: Global, depth: usize) -> Result<Vec<u8>, AllocError> {
    let mut text = Vec::from_slice(alloc, b"MINION 3 **VARIABLES** BOOL x ALIAS a[1".as_slice())?;
    push_times(&mut text, b",1".as_slice(), depth.saturating_sub(1))?;
    text.extend_from_slice(b"] = ".as_slice())?;
    push_times(&mut text, b"[".as_slice(), depth)?;
    text.push(b'x')?;
    push_times(&mut text, b"]".as_slice(), depth)?;
    text.extend_from_slice(b" **EOF**".as_slice())?;
    Ok(text)
}

// No proof bounds the stack, so brackets that are read by a call of its own each would end the program.
#[test]
fn brackets_may_be_deep(rt: HostRuntime) -> Result<(), Fail> {
    let text = deep(rt.alloc(), 100_000)?;
    match read(rt.alloc(), text.as_slice()) {
        Ok(inst) => assert_eq!(rt; inst.aliases().len(), 1),
        Err(why) => assert!(rt; false, "{why:?}"),
    }
    Ok(())
}

#[test]
fn laws_of_texts_stand() {
    one_instance();
    one_verdict();
}
