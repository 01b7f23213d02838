//! What holds of all outcomes.

ghost use Rattle.d_search.specs.Laws.{HasAtMostOneOutcome, HasExactlyOneOutcome};
ghost use Rattle.d_search.specs.ProblemLaws.{HasExactlyOneSearch, SearchesKeepPromises, SearchesSuffice};
ghost use Rattle.d_search.specs.Shapes.{SearchesFormTrees};

/// Two outcomes of the same rules and of the same budget of nodes are the same: verdict, bill, bound, schedule and tree.
pub fn one_outcome()
    ensures { HasAtMostOneOutcome }
{}

/// Where nodes have a bound exactly where they have a bill, exactly one outcome comes of each budget of at least one node.
pub fn outcomes_are_there()
    ensures { HasExactlyOneOutcome }
{}

/// Exactly one outcome comes of the search of a problem that may make at least one node.
pub fn searched_once()
    ensures { HasExactlyOneSearch }
{}

/// Where no period is tiered a search keeps its promises.
pub fn searches_keep_promises()
    ensures { SearchesKeepPromises }
{}

/// Where no period is tiered, and one candidate of each group can be chosen in N ways, 2 * N - 1 nodes suffice: the search ends with the
/// least bill, or with no feasible schedule.
pub fn searches_suffice()
    ensures { SearchesSuffice }
{}

/// Where no period is tiered, the nodes of a search form one tree, which has each of them once: halves come behind the box that they are of, each
/// node's box is one of the problem, and where it was split it may be split.
pub fn searches_form_trees()
    ensures { SearchesFormTrees }
{}
