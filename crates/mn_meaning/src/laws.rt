//! Laws of the definitions: what they say is what the subject means. The functions do nothing.
ghost use Rattle.mn_meaning.specs.Laws.{
  AllAreOwed,
  AssignmentsAreAll,
  AssignmentsAreDistinct,
  AssignmentsAreOrdered,
  DistinctAreCounted,
  LawfulBitsAreBits,
  LawfulDomainsAscend,
  LawfulIsMeant,
  LawfulOrderIsKnown,
  ListedIsDistinct,
  ListedIsOrdered,
  NegationHasTheTables,
  NegationHoldsWhereNot,
  NegationIsMeant,
  NegationIsShaped,
  PlainOrder,
  QuotientRoundsDown,
  QuotientRoundsDownBelow,
  RecordsAreOwed,
  RecordsImprove,
  RecordsReachTheBest,
  RemainderIsSmall,
  SearchOrderIsDistinct,
  SearchOrderIsWhole,
  SolutionsAreDistinct,
  SolutionsAreOrdered,
  SolutionsAreThoseThatHold,
};

/// The values of a lawful problem's domains rise, and its order of search names variables of its own.
pub fn lawful_problems_are_fit()
    ensures ascend { LawfulDomainsAscend }
    ensures known { LawfulOrderIsKnown }
{}

/// The search takes each variable in turn, each once.
pub fn search_order_is_whole()
    ensures members { SearchOrderIsWhole }
    ensures distinct { SearchOrderIsDistinct }
{}

/// Without an order of search, the assignments are the choices of one value from each domain.
pub fn without_an_order()
    ensures { PlainOrder }
{}

/// The assignments of a problem are all lists with one value of each domain in its place. Where the domains' values
/// rise, they stand in the order of the search, each once.
pub fn assignments_are_all()
    ensures members { AssignmentsAreAll }
    ensures ordered { AssignmentsAreOrdered }
    ensures distinct { AssignmentsAreDistinct }
{}

/// The solutions of a problem are the assignments under which all its constraints hold, in the same order.
pub fn solutions_are_those_that_hold()
    ensures members { SolutionsAreThoseThatHold }
    ensures ordered { SolutionsAreOrdered }
    ensures distinct { SolutionsAreDistinct }
{}

/// Without an objective all solutions are owed, and with one those that are better than all solutions before them, of
/// which the last is an optimum. What is owed stands in the order of the search, each once.
pub fn records_are_owed()
    ensures all { AllAreOwed }
    ensures members { RecordsAreOwed }
    ensures improve { RecordsImprove }
    ensures reach { RecordsReachTheBest }
    ensures ordered { ListedIsOrdered }
    ensures distinct { ListedIsDistinct }
{}

/// A negation holds exactly where the constraint doesn't, if the constraint's lists have the lengths that they need and
/// its 0/1 terms are 0 or 1. The second are so wherever the variables have declared values.
pub fn negations_hold_where_not()
    ensures holds { NegationHoldsWhereNot }
    ensures bits { LawfulBitsAreBits }
{}

/// A lawful constraint has a meaning, and so has its negation. The negation has lists of the lengths that it needs, and
/// the same tables.
pub fn negations_are_meant()
    ensures lawful { LawfulIsMeant }
    ensures negation { NegationIsMeant }
    ensures shaped { NegationIsShaped }
    ensures tables { NegationHasTheTables }
{}

/// A quotient is rounded down, also where the divisor is negative, and what it leaves lies between 0 and the divisor.
pub fn quotients_are_rounded_down()
    ensures above { QuotientRoundsDown }
    ensures below { QuotientRoundsDownBelow }
    ensures remainder { RemainderIsSmall }
{}

/// The count of distinct values is the length of a list that has the same values, each once.
pub fn distinct_values_are_counted()
    ensures { DistinctAreCounted }
{}
