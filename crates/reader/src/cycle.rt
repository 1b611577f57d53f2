// Names, types, template arguments and literals, by the names of Grammar.antt and in its order. Each reading falls with the bytes that are left.
// Some are not the Rust's: `instance` and `at_s` are shared by names and types, `items` and `item` are the loops of all lists.
ghost use Rattle.std.specs.Prelude.{◌≡◌, ℕ, ◌+◌, ◌-◌, ◌<◌, ◌≤◌, true, List, ◌∷◌, length, drop};
ghost use Rattle.grammar.specs.Limits.{most_text_bytes, most_entry_bytes};
ghost use Rattle.grammar.specs.Grammar.{reading, ⟨type⟩, ⟨template-args⟩, ⟨template-arg⟩, ⟨expr-primary⟩, ⟨name⟩, ⟨nested-name⟩, ⟨unqualified-name⟩};
ghost use Rattle.grammar.specs.Grammar.{⟨operator-name⟩, type_inner, array_type, function_type, pointer_to_member_type, nested_type, class_type, name_inner};
ghost use Rattle.grammar.specs.Grammar.{unscoped_name, std_ahead, std_name, local_name, local_encoding, prefix, prefix_args, pack};
ghost use Rattle.parser.specs.Holds.{keep};
ghost use Rattle.parser.specs.Demanglers.{Prepared, Parses};
ghost use Rattle.reader.specs.Cycle.{Wrapped, Instanced, Itemized, Item, Prefixed, PrefixedNew, PartText, BehindLetter, Structor};
ghost use Rattle.reader.specs.Instances.{instance_of, at_S_of};
ghost use Rattle.reader.specs.Lists.{PreparedFor};

use crate::lists;
use crate::lists::{Joined, Kind, Packs, Parts};
use grammar::part::Part;
use grammar::refusal::Refusal;
use grammar::{codes, text};
use parser::demangler::Demangler;
use parser::memory::{given, sum};

// A name, or else a type, of x bytes with its arguments. The arguments of a name replace those so far; those of a type come on top.
#[cycle(readers)]
fn instance(d: &mut Demangler, x: usize, named: bool) -> Result<usize, Refusal>
    requires { (Prepared d.old) × ((x ≤ most_entry_bytes) × (x ≤ d.old.stack.top)) }
    ensures { Instanced (instance_of named) x d.old d.new result }
{
    if named {
        d.args.clear();
    }
    let n = template_args(d)?;
    if named {
        d.state.templated = true;
    }
    d.recorded(x + n)
}

// <unscoped-name> ::= St <unqualified-name>
#[cycle(readers)]
fn std_prefixed(d: &mut Demangler) -> Result<usize, Refusal>
    requires { (Prepared d.old) × (std_ahead (drop d.old.state.at d.old.s.now) ≡ true) }
    ensures { Parses (std_name reading) (keep d.old.state.depth) (d.old.state.at + 1) d.old d.new result }
{
    d.state.at += 2;
    d.stack.put(b"std::");
    let n = unqualified_name(d)? + 5;
    d.push_sub(n)?;
    if d.here(b'I') {
        return instance(d, n, true);
    }
    given(n)
}

// <name> or else <type> ::= <substitution> [<template-args>] | St <unqualified-name>, at S
#[cycle(readers)]
fn at_s(d: &mut Demangler, named: bool) -> Result<usize, Refusal>
    requires { Prepared d.old }
    ensures { Parses (at_S_of named) (keep d.old.state.depth) (d.old.state.at + 1) d.old d.new result }
{
    if d.std_ahead() {
        return std_prefixed(d);
    }
    let n = d.substitution()?;
    if d.here(b'I') {
        return instance(d, n, named);
    }
    Ok(n)
}

// <name> ::= <unscoped-name> [<template-args>]
#[cycle(readers)]
fn plain(d: &mut Demangler) -> Result<usize, Refusal>
    requires { Prepared d.old }
    ensures { Parses (unscoped_name reading) (keep d.old.state.depth) (d.old.state.at + 1) d.old d.new result }
{
    let n = unqualified_name(d)?;
    if !d.here(b'I') {
        return Ok(n);
    }
    d.push_sub(n)?;
    instance(d, n, true)
}

// <name> <type>* E
#[cycle(readers)]
fn local_function(d: &mut Demangler) -> Result<usize, Refusal>
    requires { Prepared d.old }
    ensures { Parses (local_encoding reading) (keep d.old.state.depth) (d.old.state.at + 1) d.old d.new result }
{
    let n = name(d)?;
    if d.eat(b'E') {
        return Ok(n);
    }
    d.stack.put(b"(");
    let list = items(d, Kind::Types)?;
    let m = given(list.n)?;
    d.need(b'E')?;
    d.stack.put(b")");
    given(n + m + 2)
}

// <local-name> ::= Z <function encoding> E <entity name> | Z <function encoding> E s
#[cycle(readers)]
fn local_name(d: &mut Demangler) -> Result<usize, Refusal>
    requires { Prepared d.old }
    ensures { Parses (local_name reading) (keep d.old.state.depth) (d.old.state.at + 1) d.old d.new result }
{
    d.need(b'Z')?;
    let n = local_function(d)?;
    if d.eat(b's') {
        d.stack.put(b"::string literal");
        return given(n + 16);
    }
    d.stack.put(b"::");
    let m = name(d)?;
    given(n + m + 2)
}

#[cycle(readers)]
fn name_inner(d: &mut Demangler) -> Result<usize, Refusal>
    requires { Prepared d.old }
    ensures { Parses (name_inner reading) (keep d.old.state.depth) (d.old.state.at + 1) d.old d.new result }
{
    match d.peek().ok_or(Refusal::NoRule)? {
        b'N' => nested_name(d),
        b'S' => at_s(d, true),
        b'L' => {
            d.state.at += 1;
            name(d)
        }
        b'Z' => local_name(d),
        _ => plain(d),
    }
}

// <name>
#[cycle(readers)]
pub fn name(d: &mut Demangler) -> Result<usize, Refusal>
    requires { Prepared d.old }
    ensures { Parses (reading ⟨name⟩) (keep (d.old.state.depth + 1)) (d.old.state.at + 1) d.old d.new result }
{
    let depth = d.state.depth;
    d.enter()?;
    let n = name_inner(d)?;
    d.leave(depth);
    Ok(n)
}

// One part more, which begins with c.
#[cycle(readers)]
fn prefix(d: &mut Demangler, parts: Parts, c: u8) -> Result<Parts, Refusal>
    requires { PreparedFor parts d.old }
    ensures { (t : List ℕ) → drop d.old.state.at d.old.s.now ≡ c ∷ t → Prefixed (prefix reading) d.old d.new parts result }
{
    if d.structor_ahead() {
        return Ok(lists::ctor_dtor(d, parts, c));
    }
    match c {
        b'I' => prefix_args(d, parts),
        b'S' => {
            parts.separate(&mut d.stack);
            let m = d.substitution()?;
            Ok(parts.longer(m))
        }
        _ => new_prefix(d, parts, c),
    }
}

// template arguments behind the last part
#[cycle(readers)]
fn prefix_args(d: &mut Demangler, parts: Parts) -> Result<Parts, Refusal>
    requires { PreparedFor parts d.old }
    ensures { Prefixed (prefix_args reading) d.old d.new parts result }
{
    d.args.clear();
    let m = template_args(d)?;
    if parts.count == 0 {
        return Err(Refusal::NoRule);
    }
    let n = sum(parts.n, m);
    d.push_sub(n)?;
    d.state.templated = d.here(b'E');
    Ok(Parts {
        n,
        last: sum(parts.last, m),
        count: 1,
        structor: parts.structor,
    })
}

// an unqualified name or a template parameter: an entry, unless it is the last part
#[cycle(readers)]
fn new_prefix(d: &mut Demangler, parts: Parts, c: u8) -> Result<Parts, Refusal>
    requires { PreparedFor parts d.old }
    ensures { PrefixedNew c d.old d.new parts result }
{
    parts.separate(&mut d.stack);
    let m = part(d, c)?;
    let more = parts.longer(m);
    if !d.here(b'E') {
        d.push_sub(more.n)?;
    }
    Ok(more)
}

#[cycle(readers)]
fn part(d: &mut Demangler, c: u8) -> Result<usize, Refusal>
    requires { Prepared d.old }
    ensures { PartText c d.old d.new result }
{
    if c == b'T' {
        return d.template_param();
    }
    if d.digit_ahead() {
        return d.source_name();
    }
    unqualified_name(d)
}

// <nested-name> ::= N [<CV-qualifiers>] [<ref-qualifier>] <prefix> <unqualified-name> E
#[cycle(readers)]
fn nested_name(d: &mut Demangler) -> Result<usize, Refusal>
    requires { Prepared d.old }
    ensures { Parses (reading ⟨nested-name⟩) (keep d.old.state.depth) (d.old.state.at + 1) d.old d.new result }
{
    d.need(b'N')?;
    let from = d.state.at;
    let to = d.qualifiers();
    d.state.at = to;
    let mut parts = Parts {
        n: 0,
        last: 0,
        count: 0,
        structor: false,
    };
    loop {
        let c = d.peek().ok_or(Refusal::NoRule)?;
        if c == b'E' {
            d.state.at += 1;
            d.state.cv = Part { from, to };
            if parts.structor {
                d.state.templated = false;
            }
            return given(parts.n);
        }
        parts = prefix(d, parts, c)?;
    }
}

// <unqualified-name> ::= <operator-name> | <ctor-dtor-name> | <source-name> | <unnamed-type-name>
#[cycle(readers)]
fn unqualified_name(d: &mut Demangler) -> Result<usize, Refusal>
    requires { Prepared d.old }
    ensures { Parses (reading ⟨unqualified-name⟩) (keep d.old.state.depth) (d.old.state.at + 1) d.old d.new result }
{
    d.state.at = text::behind(d.s, d.state.at, b'L');
    match d.peek().ok_or(Refusal::NoRule)? {
        b'0'..=b'9' => d.source_name(),
        b'C' => structor(d, b"{ctor}"),
        b'D' => structor(d, b"{dtor}"),
        b'U' => {
            d.state.at += 1;
            d.unnamed_type_name()
        }
        _ => operator_name(d),
    }
}

// <ctor-dtor-name> that stands alone, at C or D
fn structor(d: &mut Demangler, word: &[u8]) -> Result<usize, Refusal>
    requires { (d.old.state.at < length d.old.s.now) × (length word.now ≤ most_text_bytes) }
    ensures { Structor word.now d.old d.new result }
{
    d.state.at += 1;
    d.take()?;
    d.stack.put(word);
    Ok(word.len())
}

// <operator-name> ::= nw | .. | cv <type>
#[cycle(readers)]
fn operator_name(d: &mut Demangler) -> Result<usize, Refusal>
    requires { Prepared d.old }
    ensures { Parses (reading ⟨operator-name⟩) (keep d.old.state.depth) (d.old.state.at + 1) d.old d.new result }
{
    let a = d.take()?;
    let c = d.take()?;
    if let Some(word) = codes::operator_name(a, c) {
        d.stack.put(word);
        return Ok(word.len());
    }
    if a != b'c' || c != b'v' {
        return Err(Refusal::NoRule);
    }
    d.stack.put(b"operator ");
    let n = ty(d)?;
    d.state.templated = false;
    given(n + 9)
}

// P R O K C V r <type>, behind the letter
#[cycle(readers)]
fn wrapped(d: &mut Demangler, c: u8) -> Result<usize, Refusal>
    requires { Prepared d.old }
    ensures { Wrapped c d.old d.new result }
{
    let n = ty(d)?;
    d.wrap(n, c)
}

// <function-type> ::= F <type> <type>* E, behind F
#[cycle(readers)]
fn function_type(d: &mut Demangler) -> Result<usize, Refusal>
    requires { Prepared d.old }
    ensures { Parses (function_type reading) (keep d.old.state.depth) (d.old.state.at + 1) d.old d.new result }
{
    let r = ty(d)?;
    d.stack.put(b" (\x01)(");
    let list = items(d, Kind::Types)?;
    d.need(b'E')?;
    lists::func_end(d, r, list)
}

// <array-type> ::= A [<dimension>] _ <type>, behind A
#[cycle(readers)]
fn array_type(d: &mut Demangler) -> Result<usize, Refusal>
    requires { Prepared d.old }
    ensures { Parses (array_type reading) (keep d.old.state.depth) (d.old.state.at + 1) d.old d.new result }
{
    let from = d.state.at;
    let to = text::before(d.s, from, b'_');
    d.state.at = to;
    d.need(b'_')?;
    let n = ty(d)?;
    d.stack.put(b" [");
    d.stack.put(&d.s[from..to]);
    d.stack.put(b"]");
    given(n + 3 + (to - from))
}

// <pointer-to-member-type> ::= M <type> <type>, behind M
#[cycle(readers)]
fn pointer_to_member_type(d: &mut Demangler) -> Result<usize, Refusal>
    requires { Prepared d.old }
    ensures { Parses (pointer_to_member_type reading) (keep d.old.state.depth) (d.old.state.at + 1) d.old d.new result }
{
    let c = ty(d)?;
    let m = ty(d)?;
    d.wrap_member(c, m)
}

// <class-enum-type> ::= <nested-name>
#[cycle(readers)]
fn nested_type(d: &mut Demangler) -> Result<usize, Refusal>
    requires { Prepared d.old }
    ensures { Parses (nested_type reading) (keep d.old.state.depth) (d.old.state.at + 1) d.old d.new result }
{
    let n = nested_name(d)?;
    if d.newest_entry(n) {
        return Ok(n);
    }
    d.recorded(n)
}

// <class-enum-type> ::= <source-name> [<template-args>]
#[cycle(readers)]
fn class_type(d: &mut Demangler) -> Result<usize, Refusal>
    requires { Prepared d.old }
    ensures { Parses (class_type reading) (keep d.old.state.depth) (d.old.state.at + 1) d.old d.new result }
{
    let n = d.source_name()?;
    d.push_sub(n)?;
    if d.here(b'I') {
        return instance(d, n, false);
    }
    Ok(n)
}

#[cycle(readers)]
pub fn type_inner(d: &mut Demangler) -> Result<usize, Refusal>
    requires { Prepared d.old }
    ensures { Parses (type_inner reading) (keep d.old.state.depth) (d.old.state.at + 1) d.old d.new result }
{
    let c = d.peek().ok_or(Refusal::NoRule)?;
    if let Some(word) = codes::builtin(c) {
        d.state.at += 1;
        d.stack.put(word);
        return Ok(word.len());
    }
    match c {
        b'D' => d.builtin_d(),
        b'N' => nested_type(d),
        b'T' => d.template_param(),
        b'S' => at_s(d, false),
        b'0'..=b'9' => class_type(d),
        _ => behind_letter(d, c),
    }
}

// The types that their first letter tells, at the letter.
#[cycle(readers)]
fn behind_letter(d: &mut Demangler, c: u8) -> Result<usize, Refusal>
    requires { (Prepared d.old) × (d.old.state.at < length d.old.s.now) }
    ensures { BehindLetter c d.old d.new result }
{
    d.state.at += 1;
    match c {
        b'P' | b'R' | b'O' | b'C' | b'K' | b'V' | b'r' => wrapped(d, c),
        b'A' => array_type(d),
        b'F' => function_type(d),
        b'M' => pointer_to_member_type(d),
        b'u' => d.source_name(),
        _ => Err(Refusal::NoRule),
    }
}

// <type>
#[cycle(readers)]
pub fn ty(d: &mut Demangler) -> Result<usize, Refusal>
    requires { Prepared d.old }
    ensures { Parses (reading ⟨type⟩) (keep (d.old.state.depth + 1)) (d.old.state.at + 1) d.old d.new result }
{
    let depth = d.state.depth;
    d.enter()?;
    let n = type_inner(d)?;
    d.leave(depth);
    Ok(n)
}

// A list of types or of template arguments.
#[cycle(readers)]
pub fn items(d: &mut Demangler, kind: Kind) -> Result<Joined, Refusal>
    requires { Prepared d.old }
    ensures { Itemized kind d.old d.new result }
{
    let mut list = Joined { n: 0, count: 0 };
    while let Some(c) = d.peek() {
        if lists::stops(kind, c) {
            break;
        }
        lists::comma(&mut d.stack, list.count);
        let m = item(d, kind)?;
        list = list.longer(m);
    }
    Ok(list)
}

// One text of a list.
#[cycle(readers)]
fn item(d: &mut Demangler, kind: Kind) -> Result<usize, Refusal>
    requires { Prepared d.old }
    ensures { Item kind d.old d.new result }
{
    match kind {
        Kind::Parameters | Kind::Types => ty(d),
        Kind::Arguments => {
            let n = template_arg(d)?;
            d.push_arg(n)?;
            Ok(n)
        }
    }
}

// <template-args> ::= I <template-arg>* E
#[cycle(readers)]
pub fn template_args(d: &mut Demangler) -> Result<usize, Refusal>
    requires { Prepared d.old }
    ensures { Parses (reading ⟨template-args⟩) (keep (d.old.state.depth + 1)) (d.old.state.at + 1) d.old d.new result }
{
    d.need(b'I')?;
    let depth = d.state.depth;
    d.enter()?;
    d.stack.put(b"<");
    let list = items(d, Kind::Arguments)?;
    d.need(b'E')?;
    d.leave(depth);
    let close: &[u8] = if d.stack.newest(1) == b">".as_slice() {
        b" >"
    } else {
        b">"
    };
    d.stack.put(close);
    given(sum(list.n, close.len() + 1))
}

// J <template-arg>* E, behind J. Packs inside one another are read in one loop, up to 64 in the outermost: n is for the
// innermost what `outer` has for each around it, the bytes of its texts so far, with two more for each text.
#[cycle(readers)]
fn pack(d: &mut Demangler) -> Result<usize, Refusal>
    requires { Prepared d.old }
    ensures { Parses (pack reading) (keep d.old.state.depth) (d.old.state.at + 1) d.old d.new result }
{
    let mut outer = Packs::none();
    let mut n: usize = 0;
    loop {
        let c = d.peek().ok_or(Refusal::NoRule)?;
        if c == b'E' {
            d.state.at += 1;
            let m = given(n.saturating_sub(2))?;
            match outer.pop() {
                Some(size) => n = sum(size, m + 2),
                None => return Ok(m),
            }
            continue;
        }
        lists::comma(&mut d.stack, n);
        if outer.opens(c) {
            d.state.at += 1;
            outer.push(n);
            n = 0;
            continue;
        }
        let m = template_arg(d)?;
        n = sum(n, m + 2);
    }
}

// <template-arg> ::= <type> | X <expression> E | <expr-primary> | J <template-arg>* E
#[cycle(readers)]
pub fn template_arg(d: &mut Demangler) -> Result<usize, Refusal>
    requires { Prepared d.old }
    ensures { Parses (reading ⟨template-arg⟩) (keep d.old.state.depth) (d.old.state.at + 1) d.old d.new result }
{
    if d.here(b'L') {
        return expr_primary(d);
    }
    if d.eat(b'X') {
        d.state.at = d.expression().ok_or(Refusal::NoRule)?;
        d.stack.put(b"...");
        return Ok(3);
    }
    if d.eat(b'J') {
        return pack(d);
    }
    ty(d)
}

// <expr-primary> ::= L <type> <value number> E | L _ <name> E
#[cycle(readers)]
fn expr_primary(d: &mut Demangler) -> Result<usize, Refusal>
    requires { Prepared d.old }
    ensures { Parses (reading ⟨expr-primary⟩) (keep d.old.state.depth) (d.old.state.at + 1) d.old d.new result }
{
    d.need(b'L')?;
    if d.eat(b'_') {
        let n = name(d)?;
        let _ = d.eat(b'E');
        return Ok(n);
    }
    let n = ty(d)?;
    let from = d.state.at;
    let to = text::before(d.s, from, b'E');
    d.state.at = to;
    d.need(b'E')?;
    d.literal(n, &d.s[from..to])
}
