//! Laws of the definitions. The functions do nothing.
ghost use Rattle.mn_closure.specs.Laws.{
  ChildrenAreReady,
  ChoiceHasItsLiterals,
  ChoiceIsShown,
  ClosedByPlaces,
  ClosedIsDecided,
  ClosedIsPossible,
  ClosureIsComputed,
  ClosureIsThere,
  ClosureIsUnique,
  ClosureOrNone,
  ImpliedIsReady,
  JoinIsClosed,
  JoinIsTheLeast,
  JoinIsUnique,
  LawfulConstraintsSuit,
  LawfulIsReady,
  LawfulNegationIsReady,
  LawfulValuesAscend,
  LeafOrParts,
  LeavesAreClosed,
  LeavesArePossible,
  NegationIsDenied,
  NegationIsPossible,
  NegationIsReady,
  NoClosureIsComputed,
  NoClosureNoSolution,
  OneIsTheOnly,
  OpenIsShown,
  PlacesAreSameOrNot,
  PossibleByPlaces,
  PossibleIsDecided,
  PossibleIsShown,
  PossibleStays,
  ReadyDeniesLeaves,
  ReifiedIsReady,
  SamePlacesAreQuiet,
  SinglesTellClosed,
  SinglesTellPossible,
  SolutionsAreInClosures,
  SupportStays,
  WrittenDeniesLeaves,
};

/// What a lawful instance keeps is what the laws below ask for.
pub fn lawful_constraints_suit()
    ensures suit { LawfulConstraintsSuit }
    ensures ascend { LawfulValuesAscend }
{}

/// A lawful constraint is ready to be propagated, and so is its negation.
pub fn lawful_constraints_are_ready()
    ensures lawful { LawfulIsReady }
    ensures negation { LawfulNegationIsReady }
{}

/// So are the parts of a constraint that is ready, the negation of what is reified, and each negation that has a meaning.
pub fn parts_are_ready()
    ensures children { ChildrenAreReady }
    ensures reified { ReifiedIsReady }
    ensures implied { ImpliedIsReady }
    ensures negation { NegationIsReady }
{}

/// A constraint that can be written denies nothing, and one that is ready nothing but leaves.
pub fn leaves_are_denied()
    ensures written { WrittenDeniesLeaves }
    ensures ready { ReadyDeniesLeaves }
{}

/// Each form of constraint is a leaf or has parts. A leaf is possible, and a box is closed under it, as a whole.
pub fn leaves_are_whole()
    ensures forms { LeafOrParts }
    ensures possible { LeavesArePossible }
    ensures closed { LeavesAreClosed }
{}

/// What is supported or possible in a box is so in every box around it.
pub fn wider_boxes_keep()
    ensures supported { SupportStays }
    ensures possible { PossibleStays }
{}

/// It can be told whether a constraint is possible in a box, and whether the box is closed under it, which makes it possible.
pub fn propagation_is_decided()
    ensures possible { PossibleIsDecided }
    ensures closed { ClosedIsDecided }
    ensures met { ClosedIsPossible }
{}

/// Both speak of the sets at the constraint's places alone. In two boxes these are all the same, or one of them isn't;
/// they are the same where no change of them is fired.
pub fn places_tell()
    ensures closed { ClosedByPlaces }
    ensures possible { PossibleByPlaces }
    ensures changed { PlacesAreSameOrNot }
    ensures quiet { SamePlacesAreQuiet }
{}

/// What is possible in a box is shown by literals of the box: it is possible in every box that has these.
pub fn literals_show()
    ensures possible { PossibleIsShown }
    ensures choice { ChoiceIsShown }
    ensures literals { ChoiceHasItsLiterals }
    ensures places { OpenIsShown }
{}

/// Two boxes have a join, the least box around them. It is closed where both are.
pub fn joins_are_closed()
    ensures least { JoinIsTheLeast }
    ensures unique { JoinIsUnique }
    ensures closed { JoinIsClosed }
{}

/// A box has one closure at most.
pub fn closure_is_unique()
    ensures unique { ClosureIsUnique }
    ensures there { ClosureIsThere }
{}

/// The closure of a box is computed, so each box has one or none.
pub fn closures_are_computed()
    ensures there { ClosureIsComputed }
    ensures none { NoClosureIsComputed }
    ensures either { ClosureOrNone }
{}

/// At single values a box is closed under a constraint, and can meet it, exactly where it holds.
pub fn singles_tell()
    ensures closed { SinglesTellClosed }
    ensures possible { SinglesTellPossible }
{}

/// No solution is lost: each that lies in a box lies in the box's closure.
pub fn solutions_are_in_closures()
    ensures kept { SolutionsAreInClosures }
    ensures none { NoClosureNoSolution }
{}

/// The negation of a constraint and the constraint with its sign turned say the same.
pub fn negations_are_denied()
    ensures closed { NegationIsDenied }
    ensures possible { NegationIsPossible }
{}

/// That two children are possible, or one is and the box is closed under it, comes to what the language says: at least
/// two are, or exactly one is and the box is closed under it.
pub fn one_is_the_only()
    ensures { OneIsTheOnly }
{}
