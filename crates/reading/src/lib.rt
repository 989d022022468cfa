// The reading of an ELF64 object: the rules in their order, left at the first check that does not hold, with notes of what
// was found on the way.

#![tactic(auto)]

ghost use Rattle.std.specs.Prelude.{◌≡◌, ℕ, ◌+◌, ◌*◌, ◌<◌, ◌≤◌, List, map, length, Some, None};
ghost use Rattle.std.specs.List.{range_with_len};
ghost use Rattle.checklist.specs.Checks.{Check, first_fault, each, answer};
ghost use Rattle.elf.specs.declared.Header.{Header};
ghost use Rattle.elf.specs.Layout.{sections, place, section};
ghost use Rattle.rules.specs.Ending.{Ends};
ghost use Rattle.rules.specs.Known.{Parted};
ghost use Rattle.rules.specs.Pass.{AnswersBy};
ghost use Rattle.rules.specs.Listing.{item_checks, items, significance as significance_in, listing_rule, listing_of};
ghost use Rattle.rules.specs.Notes.{parts, listed_in, marks_of, roots, told_roots};
ghost use Rattle.rules.specs.Verdict.{checks};
ghost use Rattle.rules.specs.Rules.{pass_rule, extent_rule, only_rule, the_only, table as table_in, part_checks, told_part, relocation_rule, symbol_rule, table_rule, symbols as symbols_in, table_rule_of, symbols_of};

use elf::kind;
use fault::{Fault, Kind};
use field::{Number, gather, misshapen, none_yet};
use rules::{
    Headers, Notes, Part, Placed, RootList, SymbolTable, Symbols, Tables, is_number, mark, noted,
    refusal, relocating,
};
use std::ops::ControlFlow;

// The tables of an object whose sections end within the file, and which section its symbols are in.
#[derive(Clone, Copy)]
struct Contained<'a> {
    tables: Tables<'a>,
    symbol_section: Option<u16>,
    ghost found: { symbol_section ≡ table_in tables.headers.bytes.now },
    ghost extents: { first_fault (each (extent_rule tables.headers.bytes.now) (sections tables.headers.bytes.now)) ≡ None },
}

// A number of which some bytes are read, and the place of the first.
#[derive(Clone, Copy)]
struct Begun {
    number: Number,
    from: u64,
}

// All sections in a pass: the rule of each, by its header and the place of it.
fn every_section<F: Fn(Placed) -> Result<(), Fault>>(headers: Headers, rule: F) -> Result<(), Fault>
    requires { F.IsAlwaysCallable rule }
    ensures { (cs : ℕ → Header → List Check) → AnswersBy (F.post rule) cs → result ≡ answer (first_fault (each (pass_rule cs headers.entry.bytes.now) (sections headers.entry.bytes.now))) tt }
{
    // not `try_for_each`: tried, and its closure needs two clauses of its own, of the number and of the rule
    for i in 0..headers.count {
        rule(headers.placed(i))?;
    }
    Ok(())
}

// The section of a type that there may be only one of.
fn only(headers: Headers, kind: u32) -> Result<Option<u16>, Fault>
    ensures { result ≡ answer (first_fault (each (only_rule kind headers.entry.bytes.now) (sections headers.entry.bytes.now))) (the_only kind headers.entry.bytes.now) }
{
    (0..headers.count).try_fold(None, |found, i| headers.placed(i).only_step(kind, i, found))
}

// The symbols, which start at `from`.
fn every_symbol(headers: Headers, from: u64, count: u32) -> Result<(), Fault>
    requires { from + 24 * count ≤ length headers.bytes.now }
    ensures { result ≡ answer (first_fault (each (symbol_rule headers.entry.bytes.now from) count)) tt }
{
    (0..count).try_for_each(|j| headers.symbol_at(from + 24 * u64::from(j)))
}

// The symbol table, which is section `t`.
fn symbols_at(headers: Headers, t: u16) -> Result<Symbols, Fault>
    requires below { t < headers.count }
    requires inside { (section headers.bytes.now t).offset + (section headers.bytes.now t).size ≤ length headers.bytes.now }
    ensures { result ≡ answer (first_fault (table_rule_of headers.entry.bytes.now (Some t))) (symbols_of headers.entry.bytes.now (Some t)) }
{
    let table = headers.placed(t);
    let count = table.entry_count(65536)?;
    let from = table.header.offset;
    every_symbol(headers, from, count)?;
    Ok(Symbols { from, count })
}

// The symbol table, where there is one.
fn symbol_table(headers: Headers, symbol_section: Option<u16>) -> Result<Symbols, Fault>
    requires found { symbol_section ≡ table_in headers.bytes.now }
    requires extents { first_fault (each (extent_rule headers.bytes.now) (sections headers.bytes.now)) ≡ None }
    ensures { result ≡ answer (first_fault (table_rule headers.entry.bytes.now)) (symbols_in headers.entry.bytes.now) }
{
    match symbol_section {
        None => Ok(Symbols { from: 0, count: 0 }),
        Some(t) => symbols_at(headers, t),
    }
}

// Section `i` as one with relocations.
fn part_of(object: Contained, parts: &[Option<u16>; 1024], i: u16) -> Result<Option<Part>, Fault>
    requires below { i < object.tables.headers.count }
    requires parted { Parted object.tables.headers.bytes.now i parts.now }
    ensures { result ≡ answer (first_fault (part_checks object.entry.tables.headers.bytes.now i (place object.entry.tables.headers.bytes.now i) (section object.entry.tables.headers.bytes.now i))) (told_part object.entry.tables.headers.bytes.now (section object.entry.tables.headers.bytes.now i)) }
{
    let headers = object.tables.headers;
    let placed = headers.placed(i);
    let h = placed.header;
    if !relocating(h) {
        return Ok(None);
    }
    if h.info >= u32::from(headers.count) {
        return Err(refusal(Kind::Dangling, placed.place + 44));
    }
    let of = headers.section(h.info as u16);
    if !of.is_present() {
        return Ok(None);
    }
    let taken = noted(parts, h.info);
    let linked = is_number(object.symbol_section, h.link);
    let count = placed.relocation_count(taken, linked)?;
    Ok(Some(Part {
        target: h.info,
        size: of.size,
        from: h.offset,
        count,
    }))
}

// The relocations of all sections, left at the first fault; for each section the number of the one with its relocations.
fn relocations(object: Contained) -> Result<[Option<u16>; 1024], Fault>
    ensures { result ≡ answer (first_fault (each (relocation_rule object.entry.tables.headers.bytes.now) (sections object.entry.tables.headers.bytes.now))) (parts object.entry.tables.headers.bytes.now) }
{
    let mut parts = [None; 1024];
    let mut refused = None;
    // nested loops, left by the label at the first fault: a form that was asked for
    'reading: for i in 0..object.tables.headers.count {
        match part_of(object, &parts, i) {
            Err(f) => {
                refused = Some(f);
                break 'reading;
            }
            Ok(told) => {
                if let Some(part) = told {
                    parts[part.target as usize] = Some(i);
                    for j in 0..part.count {
                        let q = part.from + 24 * j as u64;
                        if let Err(f) = object.tables.entry_at(part.size, q) {
                            refused = Some(f);
                            break 'reading;
                        }
                    }
                }
            }
        }
    }
    if let Some(f) = refused {
        return Err(f);
    }
    Ok(parts)
}

// The address-significance table, whose bytes start at the place `base`: in which sections it lists a symbol.
fn listing(symbols: SymbolTable, base: u64, bytes: &[u8]) -> Result<[bool; 1024], Fault>
    requires { base + length bytes.now < 18446744073709551616 }
    ensures { result ≡ answer (first_fault (item_checks (symbols_in symbols.entry.bytes.now).count (items (Some 0) base bytes.now))) (map (listed_in symbols.entry.bytes.now (items (Some 0) base bytes.now)) (range_with_len 0 1024)) }
{
    let mut marks = [false; 1024];
    let mut begun: Option<Begun> = None;
    // a `for` with its index, gathering each number: a form that was asked for
    for (i, x) in bytes.iter().enumerate() {
        let anew = Begun {
            number: none_yet(),
            from: base + i as u64,
        };
        let at_hand = begun.unwrap_or(anew);
        match gather(at_hand.number, *x, at_hand.from)? {
            ControlFlow::Continue(number) => {
                begun = Some(Begun {
                    number,
                    from: at_hand.from,
                });
            }
            ControlFlow::Break(number) => {
                let s = symbols.named(at_hand.from, number)?;
                mark(&mut marks, s);
                begun = None;
            }
        }
    }
    if let Some(cut_off) = begun {
        return Err(misshapen(cut_off.from));
    }
    Ok(marks)
}

// The address-significance table, which is section `a`.
fn listing_at(tables: Tables, a: u16) -> Result<[bool; 1024], Fault>
    requires below { a < tables.headers.count }
    requires inside { (section tables.headers.bytes.now a).offset + (section tables.headers.bytes.now a).size ≤ length tables.headers.bytes.now }
    ensures { result ≡ answer (first_fault (item_checks (symbols_in tables.entry.headers.bytes.now).count (listing_of tables.entry.headers.bytes.now (Some a)))) (map (listed_in tables.entry.headers.bytes.now (listing_of tables.entry.headers.bytes.now (Some a))) (range_with_len 0 1024)) }
{
    let h = tables.headers.section(a);
    let bytes = &tables.headers.bytes[h.offset as usize..(h.offset + h.size) as usize];
    listing(tables.symbols, h.offset, bytes)
}

// The address-significance table, where there is one.
fn significance(
    object: Contained,
    significance_section: Option<u16>,
) -> Result<Option<[bool; 1024]>, Fault>
    requires { significance_section ≡ significance_in object.tables.headers.bytes.now }
    ensures { result ≡ answer (first_fault (listing_rule object.entry.tables.headers.bytes.now)) (marks_of object.entry.tables.headers.bytes.now (significance_in object.entry.tables.headers.bytes.now)) }
{
    let Some(a) = significance_section else {
        return Ok(None);
    };
    let marks = listing_at(object.tables, a)?;
    Ok(Some(marks))
}

// The roots, ascending.
fn roots(headers: Headers) -> RootList
    ensures { told_roots result ≡ roots headers.entry.bytes.now }
{
    let mut found = RootList::none();
    for i in 0..headers.count {
        if headers.section(i).is_root() {
            found.push(i);
        }
    }
    found
}

// The verdict on an object: the first check that does not hold, or, where all hold, notes of what was found.
pub fn examine(b: &[u8]) -> Result<Notes, Fault>
    ensures { Ends b.now (checks b.now) result }
{
    let headers = Headers::read(b)?;
    let len = headers.bytes.len() as u64;
    every_section(headers, |placed: Placed| placed.extent(len))?;
    every_section(headers, Placed::content)?;
    let symbol_section = only(headers, kind::SYMBOL_TABLE)?;
    let symbols = symbol_table(headers, symbol_section)?;
    let table = SymbolTable {
        bytes: headers.bytes,
        symbols,
    };
    let tables = Tables {
        headers,
        symbols: table,
    };
    let object = Contained {
        tables,
        symbol_section,
    };
    let parts = relocations(object)?;
    let significance_section = only(headers, kind::ADDRESS_SIGNIFICANCE)?;
    let listed = significance(object, significance_section)?;
    Ok(Notes {
        symbols,
        parts,
        listed,
        roots: roots(headers),
    })
}
