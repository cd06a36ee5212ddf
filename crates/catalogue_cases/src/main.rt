// Cases for the catalogue: each refusal that its calls can give, its bounds, and a kit that outlives a kind.
#![tactic(auto)]

mod tables;

use catalogue::{Catalogue, MAX_WIDTH};
use showing::{Step, set_up, show_done, show_words};
use std::io;
use tables::{ANSWERS, IMAGES, STEPS};
use words::{WordKind, make_word};

// Long enough for an image with every kind and line that may stand, and one line more.
const LIST: usize = 4_612;

fn carry_out(rt: &HostRuntime, catalogue: &mut Catalogue, steps: &[Step]) -> io::Result<()> {
    for step in steps {
        print!(rt; "{step}: ")?;
        show_done(rt, step.carry_out(catalogue))?;
    }
    Ok(())
}

fn widths(rt: &HostRuntime) -> io::Result<()> {
    for width in [0, 1, 512, 513] {
        match set_up(rt.alloc(), width) {
            Ok(_) => println!(rt; "set up {width} places: ok")?,
            Err(_) => println!(rt; "set up {width} places: refused")?,
        }
    }
    Ok(())
}

fn steps(rt: &HostRuntime) -> io::Result<()> {
    println!(rt; "-- kinds and lines, in a catalogue of three places")?;
    let mut catalogue = set_up(rt.alloc(), 3)?;
    carry_out(rt, &mut catalogue, &STEPS)
}

fn images(rt: &HostRuntime) -> io::Result<()> {
    println!(rt; "-- images")?;
    let mut catalogue = set_up(rt.alloc(), MAX_WIDTH)?;
    for case in IMAGES {
        print!(rt; "{}: ", case.label)?;
        show_done(rt, catalogue.read_image(case.words))?;
    }
    let mut list = [0; 9];
    print!(rt; "written to nine words: ")?;
    show_words(rt, catalogue.write_image(&mut list), &list)?;
    let mut short = [0; 8];
    print!(rt; "written to eight words: ")?;
    show_words(rt, catalogue.write_image(&mut short), &short)
}

fn answers(rt: &HostRuntime) -> io::Result<()> {
    println!(rt; "-- kept answers, where 10, 20 and 30 stand")?;
    let mut catalogue = set_up(rt.alloc(), 3)?;
    for serial in [10, 20, 30] {
        let _ = catalogue.enter(serial);
    }
    let mut list = vec![in rt.alloc(); 0; 4]?;
    for case in ANSWERS {
        print!(rt; "{}: ", case.label)?;
        show_words(rt, catalogue.recall(case.words, &mut list), &list)?;
    }
    let mut short = [0; 3];
    print!(rt; "no answer, and a list of three words: ")?;
    show_words(rt, catalogue.recall(&[], &mut short), &short)
}

// A kit never orders a kind that took a freed place.
fn kit(rt: &HostRuntime) -> io::Result<()> {
    println!(rt; "-- a kit that outlives a kind, in a catalogue of one place")?;
    let mut catalogue = set_up(rt.alloc(), 1)?;
    let kept = [
        make_word(WordKind::AnswerHead, 1),
        make_word(WordKind::Name, 50),
    ];
    let mut list = vec![in rt.alloc(); 0; 2]?;
    for one in [
        Step::Enter(50),
        Step::Withdraw(50),
        Step::Enter(60),
        Step::Withdraw(60),
        Step::Enter(50),
    ] {
        carry_out(rt, &mut catalogue, &[one])?;
        print!(rt; "recalled: ")?;
        show_words(rt, catalogue.recall(&kept, &mut list), &list)?;
    }
    Ok(())
}

fn most_kinds(rt: &HostRuntime) -> io::Result<()> {
    println!(rt; "-- 512 kinds")?;
    let mut catalogue = set_up(rt.alloc(), MAX_WIDTH)?;
    let accepted = (1..513)
        .filter(|serial| catalogue.enter(*serial).is_ok())
        .count();
    println!(rt; "accepted: {accepted}")?;
    let turns = [
        Step::Enter(513),
        Step::Enter(512),
        Step::Withdraw(7),
        Step::Enter(513),
        Step::Enter(7),
    ];
    carry_out(rt, &mut catalogue, &turns)
}

// Lines from each of 1 to 64 to each of 65 to 96: as many as may stand.
fn enter_lines(catalogue: &mut Catalogue) -> usize {
    // Child by child: one chain over the pairs got no proof.
    let mut accepted = 0usize;
    for child in 1..65 {
        let entered = (65..97)
            .filter(|parent| catalogue.enter_line(child, *parent).is_ok())
            .count();
        accepted = accepted.saturating_add(entered);
    }
    accepted
}

fn most_lines(rt: &HostRuntime) -> io::Result<()> {
    println!(rt; "-- 2048 lines")?;
    let mut catalogue = set_up(rt.alloc(), 96)?;
    for serial in 1..97 {
        let _ = catalogue.enter(serial);
    }
    let accepted = enter_lines(&mut catalogue);
    println!(rt; "accepted: {accepted}")?;
    let turns = [
        Step::Line(65, 66),
        Step::Line(1, 65),
        Step::Unline(1, 65),
        Step::Line(65, 66),
        Step::Line(1, 65),
        Step::Unline(65, 66),
        Step::Line(1, 65),
    ];
    carry_out(rt, &mut catalogue, &turns)?;
    one_line_too_many(rt, &catalogue)
}

// The image of all these lines is read back; with one line more it is refused at that line's parent.
fn one_line_too_many(rt: &HostRuntime, full: &Catalogue) -> io::Result<()> {
    let mut list = vec![in rt.alloc(); 0; LIST]?;
    let Ok(count) = full.write_image(&mut list) else {
        return println!(rt; "the image does not fit its list");
    };
    list.truncate(count);
    println!(rt; "words of the image: {count}")?;
    let mut catalogue = set_up(rt.alloc(), 96)?;
    print!(rt; "read back: ")?;
    show_done(rt, catalogue.read_image(&list))?;
    let _ = list.pop();
    list.push(make_word(WordKind::Child, 65))?;
    list.push(make_word(WordKind::Parent, 66))?;
    list.push(make_word(WordKind::ImageEnd, 4_195))?;
    let mut catalogue = set_up(rt.alloc(), 96)?;
    print!(rt; "one line more: ")?;
    show_done(rt, catalogue.read_image(&list))
}

fn main(rt: HostRuntime) -> io::Result<()> {
    widths(&rt)?;
    steps(&rt)?;
    images(&rt)?;
    answers(&rt)?;
    kit(&rt)?;
    most_kinds(&rt)?;
    most_lines(&rt)
}
