//! Lines by example.
use bracket::{BoardText, Command, Kind, Side, read};

#[test]
fn forms_are_read(rt: HostRuntime) {
    assert_eq!(rt;
        read(b"(component 20 (budget 3 40))"),
        Ok(Command::Component {
            level: 20,
            budget: 3,
            period: 40,
        })
    );
    let first = Side {
        kind: Kind::Fixed,
        reach: 3,
    };
    let second = Side {
        kind: Kind::Deadline,
        reach: 5,
    };
    assert_eq!(rt;
        read(b"(board join (fixed 3) (deadline 5))"),
        Ok(Command::Board(BoardText::Join(first, second)))
    );
    assert_eq!(rt;
        read(b"(holder 9999999999999999)"),
        Ok(Command::Holder {
            resource: 9_999_999_999_999_999,
        })
    );
}

// The cause and the column of a line's fault, or nothing where the line is read.
fn fault_of(line: &[u8]) -> Option<(u8, usize)> {
    let fault = read(line).err()?;
    Some((fault.cause(), fault.column()))
}

#[test]
fn faults_are_found(rt: HostRuntime) {
    assert_eq!(rt; fault_of(b"(tick)"), None);
    assert_eq!(rt; fault_of(b""), Some((32, 1)));
    assert_eq!(rt; fault_of(b"(seal 0)"), Some((32, 1)));
    assert_eq!(rt; fault_of(b"(task 0 20) "), Some((32, 1)));
    assert_eq!(rt; fault_of(b"(task 0 020)"), Some((31, 9)));
    assert_eq!(rt; fault_of(b"(holder 10000000000000000)"), Some((31, 9)));
    assert_eq!(rt; fault_of(b"(components 1)"), Some((31, 2)));
    assert_eq!(rt; fault_of(b"(Tick 00)"), Some((30, 2)));
    assert_eq!(rt; fault_of(&[b' '; 80]), Some((32, 1)));
    assert_eq!(rt; fault_of(&[b' '; 81]), Some((33, 81)));
}
