//! Texts cut into tokens, with what stops them; the values of numbers; long words and long lists.
ghost use Rattle.std.specs.Prelude.{All};
ghost use Rattle.mn_lexer.specs.Reading.{IsTokenOf};

use super::{
    LexFault, Mark, NoMemory, TEXT_LIMIT, Token, TokenKind, Tokens, mark_of, number_value, tokens,
};
use std::alloc::Global;

// Each token with a letter for its kind, and a space behind it.
fn shown(alloc: Global, text: &[u8], list: &Tokens) -> Result<Vec<u8>, NoMemory>
    requires { All (IsTokenOf text.now) list.now }
{
    let mut out = Vec::new(alloc);
    for i in 0..list.len() {
        let token = list.get(i);
        out.extend_from_slice(match token.kind {
            TokenKind::Word => b"w:".as_slice(),
            TokenKind::Number => b"n:".as_slice(),
            TokenKind::Head => b"h:".as_slice(),
            TokenKind::Mark => b"m:".as_slice(),
        })?;
        let at = token.at as usize;
        out.extend_from_slice(&text[at..at + token.len as usize])?;
        out.push(b' ')?;
    }
    Ok(out)
}

// A text, its tokens as `shown` shows them, and what ends them before the text's end.
#[derive(Drop)]
struct Row<'a> {
    text: &'a [u8],
    shown: &'a [u8],
    stop: Option<LexFault>,
}

fn whole<'a>(text: &'a [u8], shown: &'a [u8]) -> Row<'a> {
    Row {
        text,
        shown,
        stop: None,
    }
}

fn stopped<'a>(text: &'a [u8], shown: &'a [u8], stop: LexFault) -> Row<'a> {
    Row {
        text,
        shown,
        stop: Some(stop),
    }
}

fn is_right(alloc: Global, row: &Row) -> Result<bool, NoMemory> {
    if row.text.len() > 1000 {
        return Ok(false);
    }
    let lexed = tokens(alloc, row.text)?;
    let shown = shown(alloc, row.text, &lexed.list)?;
    Ok(shown.as_slice() == row.shown && lexed.stop == row.stop)
}

#[test]
fn whole_texts(rt: HostRuntime) -> Result<(), NoMemory> {
    let rows = [
        whole(b"", b""),
        whole(b"1..2", b"n:1 m:.. n:2 "),
        whole(
            b"-5 5x 5-3 a-b x5- _ __",
            b"n:-5 n:5 w:x n:5 n:-3 w:a-b w:x5- w:_ w:__ ",
        ),
        whole(b"x[0,_]", b"w:x m:[ n:0 m:, w:_ m:] "),
        whole(b"!x=y", b"m:! w:x m:= w:y "),
        whole(b"**VARIABLES**BOOL r", b"h:**VARIABLES** w:BOOL w:r "),
        whole(b"**EOF**x\xff", b"h:**EOF** "),
        whole(b"**EOFX**\t**EOF** **EOF**", b"h:**EOFX** h:**EOF** "),
        whole(
            b"-1000000000 0000000000001000000000 -0 00",
            b"n:-1000000000 n:0000000000001000000000 n:-0 n:00 ",
        ),
        whole(
            b"MINION 3\r\n# made by a modelling tool\r\nBOOL take[2,2]\r\n0 0  1 0\r\n",
            b"w:MINION n:3 w:BOOL w:take m:[ n:2 m:, n:2 m:] n:0 n:0 n:1 n:0 ",
        ),
        whole(b"# caf\xc3\xa9 \x00 **EOF**\nx# y", b"w:x "),
        whole(
            b"DISCRETE x {0..2} ineq(x,y,-1)",
            b"w:DISCRETE w:x m:{ n:0 m:.. n:2 m:} w:ineq m:( w:x m:, w:y m:, n:-1 m:) ",
        ),
        whole(
            b"watched-or({w-notliteral(x,0)})",
            b"w:watched-or m:( m:{ w:w-notliteral m:( w:x m:, n:0 m:) m:} m:) ",
        ),
        whole(b"{<0,1>}", b"m:{ m:< n:0 m:, n:1 m:> m:} "),
    ];
    for row in rows.iter() {
        assert!(rt; is_right(rt.alloc(), row)?, "at {:?}", row.text);
    }
    Ok(())
}

#[test]
fn faults(rt: HostRuntime) -> Result<(), NoMemory> {
    let rows = [
        stopped(b"- 5", b"", LexFault::Lex(0)),
        stopped(b"x --5", b"w:x ", LexFault::Lex(2)),
        stopped(b" **eof**", b"", LexFault::Lex(1)),
        stopped(b"***", b"", LexFault::Lex(0)),
        stopped(b"****", b"", LexFault::Lex(0)),
        stopped(b"x**A*", b"w:x ", LexFault::Lex(1)),
        stopped(b"**A", b"", LexFault::Lex(0)),
        stopped(b"**A1**", b"", LexFault::Lex(0)),
        stopped(b".", b"", LexFault::Lex(0)),
        stopped(b"1...2", b"n:1 m:.. ", LexFault::Lex(3)),
        stopped(b"a\r\n\tb\x0b", b"w:a w:b ", LexFault::Lex(5)),
        stopped(b"x\x00", b"w:x ", LexFault::Lex(1)),
        stopped(b"\x7f", b"", LexFault::Lex(0)),
        stopped(b"a\x80", b"w:a ", LexFault::Lex(1)),
        stopped(
            b"MINION 3\n**VARIABLES**\nBOUND x {0..1000000001}",
            b"w:MINION n:3 h:**VARIABLES** w:BOUND w:x m:{ n:0 m:.. ",
            LexFault::NumberRange(35),
        ),
        stopped(b"1 -1000000001 $", b"n:1 ", LexFault::NumberRange(2)),
        stopped(
            b"0099999999999999999999999999999x",
            b"",
            LexFault::NumberRange(0),
        ),
    ];
    for row in rows.iter() {
        assert!(rt; is_right(rt.alloc(), row)?, "at {:?}", row.text);
    }
    Ok(())
}

// The values of the numbers, and the marks.
fn meanings(alloc: Global, text: &[u8], list: &Tokens) -> Result<(Vec<i64>, Vec<Mark>), NoMemory>
    requires { All (IsTokenOf text.now) list.now }
{
    let mut values = Vec::new(alloc);
    let mut marks = Vec::new(alloc);
    for i in 0..list.len() {
        let token = list.get(i);
        let at = token.at as usize;
        let bytes = &text[at..at + token.len as usize];
        match token.kind {
            TokenKind::Number => values.push(number_value(bytes))?,
            TokenKind::Mark => marks.push(mark_of(bytes))?,
            TokenKind::Word | TokenKind::Head => {}
        }
    }
    Ok((values, marks))
}

#[test]
fn values_and_marks(rt: HostRuntime) -> Result<(), NoMemory> {
    let text = b"-0 007 -1000000000 1000000000 -12 []{}()<>,=!..".as_slice();
    let lexed = tokens(rt.alloc(), text)?;
    let (values, marks) = meanings(rt.alloc(), text, &lexed.list)?;
    assert!(rt; values.as_slice() == [0, 7, -1_000_000_000, 1_000_000_000, -12].as_slice());
    assert!(rt;
        marks.as_slice()
            == [
                Mark::OpenSquare,
                Mark::CloseSquare,
                Mark::OpenCurly,
                Mark::CloseCurly,
                Mark::OpenRound,
                Mark::CloseRound,
                Mark::Less,
                Mark::Greater,
                Mark::Comma,
                Mark::Equals,
                Mark::Bang,
                Mark::Dots,
            ]
            .as_slice()
    );
    Ok(())
}

#[test]
fn a_list_grows(rt: HostRuntime) -> Result<(), NoMemory> {
    let token = Token {
        kind: TokenKind::Head,
        at: 7,
        len: 5,
    };
    let mut list = Tokens::new(rt.alloc());
    list.push(token)?;
    assert_eq!(rt; list.len(), 1);
    assert_eq!(rt; list.get(0), token);
    super::one_reading();
    Ok(())
}

// The places and the lengths of the tokens of a text that is words of these lengths.
fn places(alloc: Global, lens: &[usize]) -> Result<Vec<u32>, NoMemory> {
    let mut text = Vec::new(alloc);
    for len in lens.iter() {
        for _ in 0..*len {
            text.push(b'x')?;
        }
        text.push(b' ')?;
    }
    let mut out = Vec::new(alloc);
    if text.len() > TEXT_LIMIT {
        return Ok(out);
    }
    let lexed = tokens(alloc, text.as_slice())?;
    for i in 0..lexed.list.len() {
        let token = lexed.list.get(i);
        out.push(token.at)?;
        out.push(token.len)?;
    }
    Ok(out)
}

#[test]
fn long_words(rt: HostRuntime) -> Result<(), NoMemory> {
    let places = places(rt.alloc(), &[65_534, 65_535, 70_000, 1])?;
    assert!(rt;
        places.as_slice() == [0, 65_534, 65_535, 65_535, 131_071, 70_000, 201_072, 1].as_slice()
    );
    Ok(())
}
