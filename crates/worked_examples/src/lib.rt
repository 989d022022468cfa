// The worked examples, all in one place. Each crate that defines something has a list of them; the checker computes that the definitions
// give what stands there, and here one contract names every list. The programs `graph_cases`, `pile_cases`, `number_cases` and `refold`
// run them through the code, but for the names and the maps that are read.

#![tactic(auto)]

ghost use Rattle.field.specs.Examples.{ExamplesHold as NumbersHold};
ghost use Rattle.section_names.specs.Examples.{ExamplesHold as NamesHold};
ghost use Rattle.unfolding.specs.Examples.{ExamplesHold as UnfoldingsHold};
ghost use Rattle.runs.specs.Examples.{ExamplesHold as PilesHold};
ghost use Rattle.layout.specs.Verdict.{EmptyTable};
ghost use Rattle.foldmap.specs.Examples.{ExamplesHold as MapsHold};
ghost use Rattle.fates.specs.Examples.{ExamplesHold as MapsReadHold};

// Every example comes out as it is written: ULEB128 numbers, names in a small file, small graphs that differ in one part of
// an unfolding, calls on piles with their answers and places, the table of the empty graph, and fold maps written and read.
pub fn all_hold()
    ensures numbers { NumbersHold }
    ensures names { NamesHold }
    ensures unfoldings { UnfoldingsHold }
    ensures piles { PilesHold }
    ensures empty_table { EmptyTable }
    ensures maps { MapsHold }
    ensures maps_read { MapsReadHold }
{
    field::examples_hold();
    section_names::examples_hold();
    unfolding::examples_hold();
    runs::examples_hold();
    layout::empty_table();
    foldmap::examples_hold();
    fates::examples_hold();
}
