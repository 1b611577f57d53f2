// Types, template arguments and nested names of a catalogue symbol, read, and written as in the normal symbol. Each reading falls with the
// bytes that are left.
ghost use Rattle.std.specs.Prelude.{◌≡◌, ℕ, ◌<◌, length};
ghost use Rattle.catalogue.specs.Tree.{Wrap};
ghost use Rattle.catalogue.specs.Recogniser.{lead_wrap, lead_digit, lead_S, lead_N};
ghost use Rattle.normal_nodes.specs.Nodes.{note_type, note_args, note_parts, note_more};
ghost use Rattle.normal_steps.specs.Carries.{Ready, Stretch, Kept, Fueled, most_number};
ghost use Rattle.normal_writer.specs.Cycle.{Leads, WithArgs};

use normal_steps::lead::{self, Lead};
use normal_steps::state::Writer;
use normal_steps::steps;

// <type>, <template-arg>
#[cycle(types)]
pub fn ty(w: &mut Writer) -> Option<usize>
    requires { Ready w.old }
    ensures { Kept w.old w.new (Fueled 1 4 w.old.state.out 0 note_type w.old w.new result) }
{
    let c = w.peek()?;
    match lead::lead_of(c) {
        Lead::Letter => {
            w.copy_byte();
            Some(usize::from(c))
        }
        Lead::Wrap => wrap(w, c),
        Lead::Digit => named(w),
        Lead::S => referred(w),
        Lead::N => nested(w),
        Lead::L => {
            w.state.at += 1;
            w.literal()
        }
        Lead::None => None,
    }
}

// P R O K V <type>
#[cycle(types)]
fn wrap(w: &mut Writer, c: u8) -> Option<usize>
    requires { (w.old.state.at < length w.old.s.now) × Ready w.old }
    ensures { Kept w.old w.new ((q : Wrap) → Leads (lead_wrap q) c w.old w.new result) }
{
    let from = w.state.out;
    w.copy_byte();
    let t = ty(w)?;
    w.wrap(c, t, from)
}

// <source-name> [I <template-args> E]
#[cycle(types)]
fn named(w: &mut Writer) -> Option<usize>
    requires { (w.old.state.at < length w.old.s.now) × Ready w.old }
    ensures { Kept w.old w.new ((c : ℕ) → Leads lead_digit c w.old w.new result) }
{
    let from = w.state.out;
    let t = w.first_name()?;
    with_args(w, t, from)
}

// S [<seq-id>] _ [I <template-args> E]
#[cycle(types)]
fn referred(w: &mut Writer) -> Option<usize>
    requires { (w.old.state.at < length w.old.s.now) × Ready w.old }
    ensures { Kept w.old w.new ((c : ℕ) → Leads lead_S c w.old w.new result) }
{
    let from = w.state.out;
    w.state.at += 1;
    let t = w.first_reference()?;
    with_args(w, t, from)
}

// [I <template-args> E], behind a class of one part
#[cycle(types)]
fn with_args(w: &mut Writer, t: usize, from: usize) -> Option<usize>
    requires { ((t < most_number) × (Stretch from w.old.state)) × Ready w.old }
    ensures { Kept w.old w.new (WithArgs t from w.old w.new result) }
{
    if !w.here(b'I') {
        return Some(t);
    }
    if w.tag_of(t) != usize::from(b'0') {
        return None;
    }
    w.copy_byte();
    let u = args(w, t)?;
    w.close();
    w.enter(u, from);
    Some(u)
}

// <template-arg>+ E, behind what has the number t
#[cycle(types)]
pub fn args(w: &mut Writer, t: usize) -> Option<usize>
    requires { (t < most_number) × Ready w.old }
    ensures { Kept w.old w.new (Fueled 0 5 w.old.state.out 1 (λ m. note_args m t) w.old w.new result) }
{
    let mut of = t;
    loop {
        let x = ty(w)?;
        of = w.arg(of, x);
        if w.here(b'E') {
            w.state.at += 1;
            return Some(of);
        }
    }
}

// N <parts> E
#[cycle(types)]
fn nested(w: &mut Writer) -> Option<usize>
    requires { (w.old.state.at < length w.old.s.now) × Ready w.old }
    ensures { Kept w.old w.new ((c : ℕ) → Leads lead_N c w.old w.new result) }
{
    let from = w.state.out;
    w.copy_byte();
    let u = parts(w)?;
    w.close();
    w.enter_nested(u, from);
    Some(u)
}

// <source-name> <more> or S [<seq-id>] _ <more>, behind N
#[cycle(types)]
pub fn parts(w: &mut Writer) -> Option<usize>
    requires { Ready w.old }
    ensures { Kept w.old w.new (Fueled 1 5 w.old.state.out 0 (λ m. note_parts m w.old.state.out) w.old w.new result) }
{
    let from = w.state.out;
    match lead::lead_of(w.peek()?) {
        Lead::Digit => {
            let t = w.first_name()?;
            more(w, t, true, from)
        }
        Lead::S => {
            w.state.at += 1;
            let t = w.first_reference()?;
            let tag = w.tag_of(t);
            if !steps::class(tag) {
                return None;
            }
            more(w, t, tag == usize::from(b'0'), from)
        }
        _ => None,
    }
}

// (I <template-args> E or <source-name>) (E or <more>), behind what has the number t and is written from `from` on. E is taken where there is
// not one part alone; without E, what was read is leading parts and enters the table
#[cycle(types)]
fn more(w: &mut Writer, t: usize, lone: bool, from: usize) -> Option<usize>
    requires { ((t < most_number) × (Stretch from w.old.state)) × Ready w.old }
    ensures { Kept w.old w.new (Fueled 1 5 from 1 (λ m. note_more m t lone from) w.old w.new result) }
{
    let mut of = t;
    let mut alone = lone;
    loop {
        if w.here(b'I') {
            if !steps::bare(w.tag_of(of)) {
                return None;
            }
            w.copy_byte();
            of = args(w, of)?;
            w.close();
        } else {
            of = w.part(of)?;
            alone = false;
        }
        if w.here(b'E') {
            if alone {
                return None;
            }
            w.state.at += 1;
            return Some(of);
        }
        w.enter(of, from);
    }
}
