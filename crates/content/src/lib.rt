// What sections tell, compared two at a time over any section graph: first all but the sections that their relocations point at, then
// the classes of these.

#![tactic(auto)]

ghost use Rattle.std.specs.Prelude.{◌≡◌, Bool};
ghost use Rattle.model.specs.declared.Relocation.{Relocation};
ghost use Rattle.model.specs.Graph.{record_of, section_of};
ghost use Rattle.graph.specs.Bytes.{relocations_in};
ghost use Rattle.unfolding.specs.Depth.{same_list};
ghost use Rattle.unfolding.specs.Groups.{foldable};
ghost use Rattle.content.specs.Core.{told_face, Computes, same_bare, same_core, core_of, mixed_arm, bare, digest_core};
ghost use Rattle.content.specs.Aims.{class_in, same_aim_at, same_aim};

use graph::{SectionGraph, mix, relocations_told};
use model::{Record, Relocation, Setting, Target};

// Whether section `s` is present and foldable.
pub fn may_fold<G: SectionGraph>(graph: &G, s: u16) -> bool
    ensures { result ≡ foldable (G.SectionGraph.graph graph.now) s }
{
    graph
        .record_of(s)
        .is_some_and(|x| x.setting == Setting::Foldable)
}

// Flags and alignment as a record tells them, 0 of an absent section.
fn face_of(told: Option<Record>) -> (u32, u32)
    ensures { result ≡ told_face told }
{
    told.map_or((0, 0), |x| (x.flags, x.alignment))
}

// A relocation but for the section that it points at.
#[derive(Clone, Copy, PartialEq, Eq, Debug)]
struct Bare {
    offset: u16,
    kind: u32,
    displacement: i64,
    outside: Option<u16>,
}

impl From<Relocation> for Bare {
    ghost use Rattle.content.specs.Bare.{bare_of};

    ghost from_gives = { λ r b. b ≡ bare_of r };

    fn from(r: Relocation) -> Bare {
        Bare {
            offset: r.offset,
            kind: r.kind,
            displacement: r.displacement,
            outside: r.target.outside(),
        }
    }
}

// Whether two relocations are the same but for the sections that they point at.
fn same_link(r: Relocation, q: Relocation) -> bool
    ensures { result ≡ same_bare r q }
{
    Bare::from(r) == Bare::from(q)
}

// Whether sections `s` and `t` have as many relocations, and each two of them at one place are alike. By a loop: with `all` over the
// numbers the check does not find the proof alone, and an edit of what an answer cites is refused in the proof file.
fn all_alike<G: SectionGraph, F: Fn(Relocation, Relocation) -> bool>(
    graph: &G,
    s: u16,
    t: u16,
    alike: F,
) -> bool
    requires { F.IsAlwaysCallable alike }
    ensures { (test : Relocation → Relocation → Bool) → Computes (F.post alike) test → result ≡ same_list test (relocations_in (section_of (G.SectionGraph.graph graph.now) s)) (relocations_in (section_of (G.SectionGraph.graph graph.now) t)) }
{
    let count = relocations_told(graph.record_of(s));
    if count != relocations_told(graph.record_of(t)) {
        return false;
    }
    for j in 0..count {
        let (Some(r), Some(q)) = (graph.relocation(s, j), graph.relocation(t, j)) else {
            return false;
        };
        if !alike(r, q) {
            return false;
        }
    }
    true
}

// Whether sections `s` and `t` tell the same but for the sections that their relocations point at: flags, alignment, bytes, and of
// each relocation offset, type, displacement and outside name.
pub fn same_content<G: SectionGraph>(graph: &G, s: u16, t: u16) -> bool
    ensures { result ≡ same_core (section_of (G.SectionGraph.graph graph.now) s) (section_of (G.SectionGraph.graph graph.now) t) }
{
    face_of(graph.record_of(s)) == face_of(graph.record_of(t))
        && all_alike(graph, s, t, same_link)
        && graph.same_bytes(s, t)
}

// The class of section `t`, 0 past the last.
fn class_of(class: &[u16; 1024], t: u16) -> u16
    ensures { result ≡ class_in class.now t }
{
    class.get(usize::from(t)).copied().unwrap_or(0)
}

// Whether two targets, if both are sections, are of one class.
fn same_class(class: &[u16; 1024], a: Target, b: Target) -> bool
    ensures { result ≡ same_aim_at class.now a b }
{
    match (a, b) {
        (Target::Section(x), Target::Section(y)) => class_of(class, x) == class_of(class, y),
        _ => true,
    }
}

// Whether sections `s` and `t` have as many relocations, and these point at sections of the same classes one by one.
pub fn same_aims<G: SectionGraph>(graph: &G, class: &[u16; 1024], s: u16, t: u16) -> bool
    ensures { result ≡ same_list (same_aim class.now) (relocations_in (section_of (G.SectionGraph.graph graph.now) s)) (relocations_in (section_of (G.SectionGraph.graph graph.now) t)) }
{
    all_alike(graph, s, t, |r, q| same_class(class, r.target, q.target))
}

// A digest with a relocation mixed in, all but the section that it points at.
fn mix_link(digest: u64, r: Relocation) -> u64
    ensures { result ≡ mixed_arm digest (bare r) }
{
    let link = Bare::from(r);
    let placed = mix(mix(digest, u64::from(link.offset)), u64::from(link.kind));
    let name = link.outside.map_or(0, |e| u64::from(e) + 1);
    mix(mix(placed, link.displacement.unsigned_abs()), name)
}

// A digest of what `same_content` compares: where it differs, the contents differ. Where it is the same, nothing is said.
// A loop mixes the relocations in, for the same reason: with `filter_map` and `fold` the check does not find the proof alone.
pub fn content_digest<G: SectionGraph>(graph: &G, s: u16) -> u64
    ensures { result ≡ digest_core (core_of (section_of (G.SectionGraph.graph graph.now) s)) }
{
    let told = graph.record_of(s);
    let (flags, alignment) = face_of(told);
    let mut digest = mix(
        mix(graph.byte_digest(s), u64::from(flags)),
        u64::from(alignment),
    );
    for j in 0..relocations_told(told) {
        if let Some(r) = graph.relocation(s, j) {
            digest = mix_link(digest, r);
        }
    }
    digest
}
