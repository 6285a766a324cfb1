// The worked cases as one proved statement: what the definitions say of the seal book on a small catalogue, of a path
// book, of layers over books, and of single calls of a scan.
#![tactic(auto)]

ghost use Rattle.cases.specs.Cases.{WorkedCases};

use kinds::kind_cases::kind_cases_stand;

pub fn worked_cases_stand()
    ensures { WorkedCases }
{
    kind_cases_stand();
}
