//! Reading as a definition: the grammar of scripts on lists of tokens.
#![tactic(auto)]

ghost use Rattle.js_grammar.specs.EndCases.{EndCases};
ghost use Rattle.js_grammar.specs.ExpressionCases.{ExpressionCases};
ghost use Rattle.js_grammar.specs.StatementCases.{StatementCases};
ghost use Rattle.js_grammar.specs.Climbing.{Climbs};
ghost use Rattle.js_grammar.specs.Laws.{GoOn, LimitsNesting, Repeated, Tied};
ghost use Rattle.js_grammar.specs.HeightCases.{HeightCases};
ghost use Rattle.js_grammar.specs.OperatorCases.{OperatorCases};
ghost use Rattle.js_grammar.specs.RefusalCases.{RefusalCases};
ghost use Rattle.js_grammar.specs.ReadableCases.{ReadableCases};
ghost use Rattle.js_grammar.specs.ReadableNameCases.{ReadableNameCases};
ghost use Rattle.js_grammar.specs.ReadablePartCases.{ReadablePartCases};
ghost use Rattle.js_grammar.specs.TreeCases.{TreeCases};

/// Cases of reading, worked out by hand: trees with their places, what is read, what is refused and where, how operators
/// group, which tokens continue a statement, how many parts may be open at once, and how high a tree may be.
pub fn reading_cases()
    ensures trees { TreeCases }
    ensures expressions { ExpressionCases }
    ensures operators { OperatorCases }
    ensures statements { StatementCases }
    ensures ends { EndCases }
    ensures heights { HeightCases }
    ensures refusals { RefusalCases }
{}

/// Cases of trees that reading can give, and of some that it can't, worked out by hand.
pub fn readable_cases()
    ensures trees { ReadableCases }
    ensures names { ReadableNameCases }
    ensures parts { ReadablePartCases }
{}

/// Laws of the grammar, for every text: the five productions that others refer to are those of the tied grammar, a rule that
/// is repeated is used once and then repeated, these five take at least one token and never go back, of the operators with
/// two operands the tightest that is allowed is taken next, and a greater limit changes only that something is nested too
/// deep.
pub fn reading_laws()
    ensures tied { Tied }
    ensures repeated { Repeated }
    ensures go_on { GoOn }
    ensures operators { Climbs }
    ensures limits { LimitsNesting }
{}
