// Each question with its answer, or with the refusal that is due.
use super::few::Few;
use questions::{MAX_ENTRIES, evaluate};
use words::{Fault, WordKind, make_word};

// The answer, or the number and the index of the refusal.
fn asked(words: &[u32]) -> Result<bool, (u8, usize)> {
    let mut slots = [false; MAX_ENTRIES];
    match evaluate::<bool, Few>(words, &Few, &mut slots) {
        Ok(()) => Ok(slots[0]),
        Err(fault) => {
            let refusal = fault.refusal();
            Err((refusal.number, refusal.index))
        }
    }
}

fn name(serial: u32) -> u32 {
    make_word(WordKind::Name, serial)
}

fn word(kind: WordKind) -> u32 {
    make_word(kind, 0)
}

#[test]
fn answers(rt: HostRuntime) {
    assert_eq!(rt; asked(&[name(2)]), Ok(true));
    assert_eq!(rt; asked(&[name(2), name(1), word(WordKind::And)]), Ok(false));
    assert_eq!(rt; asked(&[name(2), name(1), word(WordKind::Or)]), Ok(true));
    assert_eq!(rt; asked(&[name(2), word(WordKind::Not)]), Ok(false));
    assert_eq!(rt; asked(&[word(WordKind::All)]), Ok(true));
    assert_eq!(rt; asked(&[word(WordKind::Nothing)]), Ok(false));
}

#[test]
fn refusals(rt: HostRuntime) {
    assert_eq!(rt; asked(&[]), Err((13, 0)));
    assert_eq!(rt; asked(&[name(2), 0]), Err((14, 1)));
    assert_eq!(rt; asked(&[name(0)]), Err((2, 0)));
    assert_eq!(rt; asked(&[name(1), name(9)]), Err((5, 1)));
    assert_eq!(rt; asked(&[name(1), word(WordKind::And)]), Err((16, 1)));
    assert_eq!(rt; asked(&[name(1), name(2)]), Err((17, 0)));
    assert_eq!(rt; asked(&[name(1); 33]), Err((15, 32)));
}
