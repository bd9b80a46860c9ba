// Tokens with their places, and the faults of a text.
use text::{Fault, Place, Placed, Reader, Token, sized};

// The number and the place of a fault, where there is one.
fn told(line: Result<bool, Fault>) -> Option<(u8, u32, u32)> {
    let fault = line.err()?;
    Some((fault.number(), fault.place().line, fault.place().column))
}

// Where the first fault of a script stands.
fn first_fault(script: &[u8]) -> Option<(u8, u32, u32)> {
    let mut reader = Reader::new(script);
    told(reader.next_line())
}

#[test]
fn tokens_touch_and_have_places(rt: HostRuntime) {
    let mut reader = Reader::new(b"\n(query0 17)");
    assert!(rt; reader.next_line().is_ok());
    for (token, column) in [
        (Token::Open, 1),
        (Token::Word(b"query"), 2),
        (Token::Number(0), 7),
        (Token::Number(17), 9),
        (Token::Close, 11),
    ] {
        let place = Place { line: 2, column };
        assert_eq!(rt; reader.next(), Some(Placed { token, place }));
    }
    assert!(rt; reader.next().is_none());
    assert_eq!(rt; told(reader.next_line()), None);
}

#[test]
fn the_leftmost_fault_is_told(rt: HostRuntime) {
    assert_eq!(rt; first_fault(b"(sum 00"), Some((13, 1, 6)));
    assert_eq!(rt; first_fault(b"(A)"), Some((12, 1, 2)));
    assert_eq!(rt; first_fault(b"(a\t00)"), Some((12, 1, 3)));
    assert_eq!(rt; first_fault(b"\n \n(a))"), Some((14, 3, 4)));
    assert_eq!(rt; first_fault(b"(tally  "), Some((14, 1, 9)));
    assert_eq!(rt; first_fault(b"(query 0 4294967296)"), Some((13, 1, 10)));
    assert_eq!(rt; first_fault(b"(query 0 4294967295)"), None);
}

#[test]
fn a_line_with_a_fault_is_passed_over(rt: HostRuntime) {
    let mut reader = Reader::new(b"(a\n(b)\n");
    assert_eq!(rt; told(reader.next_line()), Some((14, 1, 3)));
    assert!(rt; reader.next().is_none());
    assert_eq!(rt; told(reader.next_line()), None);
    let Some(found) = reader.next() else {
        assert!(rt; false, "the second line has tokens");
        return;
    };
    assert_eq!(rt; (found.place.line, found.place.column), (2, 1));
}

#[test]
fn longer_scripts_are_not_read(rt: HostRuntime) {
    let script = [b' '; 65_537];
    assert!(rt; sized(&script[0..65_536]).is_ok());
    match sized(&script) {
        Ok(()) => assert!(rt; false, "too long"),
        Err(fault) => assert_eq!(rt; (fault.number(), fault.place().line), (11, 0)),
    }
}
