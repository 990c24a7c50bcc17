//! The word of each form, and the arguments that it takes.
ghost use Rattle.std.specs.Prelude.{◌≡◌};
ghost use Rattle.mn_grammar.specs.Reading.{which_of};
ghost use Rattle.mn_lexer.specs.Terminals.{word};
ghost use Rattle.mn_language.specs.Forms.{form_line, form_of, form_text, form_token};

use crate::forms::{Argument, FORMS, Form, Gather, Leaf, Numbers, Places, Tie};

// The word of a form without others inside.
fn leaf_text(leaf: Leaf) -> &'static [u8]
    ensures { result.now ≡ (form_line leaf).written }
{
    match leaf {
        Leaf::Eq => b"eq".as_slice(),
        Leaf::Diseq => b"diseq".as_slice(),
        Leaf::Ineq => b"ineq".as_slice(),
        Leaf::Watchless => b"watchless".as_slice(),
        Leaf::Minuseq => b"minuseq".as_slice(),
        Leaf::Abs => b"abs".as_slice(),
        Leaf::Difference => b"difference".as_slice(),
        Leaf::Product => b"product".as_slice(),
        Leaf::Div => b"div".as_slice(),
        Leaf::Modulo => b"modulo".as_slice(),
        Leaf::Max => b"max".as_slice(),
        Leaf::Min => b"min".as_slice(),
        Leaf::Sumleq => b"sumleq".as_slice(),
        Leaf::Sumgeq => b"sumgeq".as_slice(),
        Leaf::Weightedsumleq => b"weightedsumleq".as_slice(),
        Leaf::Weightedsumgeq => b"weightedsumgeq".as_slice(),
        Leaf::Watchsumleq => b"watchsumleq".as_slice(),
        Leaf::Watchsumgeq => b"watchsumgeq".as_slice(),
        Leaf::Litsumgeq => b"litsumgeq".as_slice(),
        Leaf::Element => b"element".as_slice(),
        Leaf::Watchelement => b"watchelement".as_slice(),
        Leaf::ElementOne => b"element_one".as_slice(),
        Leaf::WatchelementOne => b"watchelement_one".as_slice(),
        Leaf::Table => b"table".as_slice(),
        Leaf::Negativetable => b"negativetable".as_slice(),
        Leaf::Alldiff => b"alldiff".as_slice(),
        Leaf::Lexleq => b"lexleq".as_slice(),
        Leaf::Lexless => b"lexless".as_slice(),
        Leaf::Watchvecneq => b"watchvecneq".as_slice(),
        Leaf::Hamming => b"hamming".as_slice(),
        Leaf::Occurrence => b"occurrence".as_slice(),
        Leaf::Occurrenceleq => b"occurrenceleq".as_slice(),
        Leaf::Occurrencegeq => b"occurrencegeq".as_slice(),
        Leaf::Nvalueleq => b"nvalueleq".as_slice(),
        Leaf::WLiteral => b"w-literal".as_slice(),
        Leaf::WNotliteral => b"w-notliteral".as_slice(),
        Leaf::WInset => b"w-inset".as_slice(),
        Leaf::WNotinset => b"w-notinset".as_slice(),
        Leaf::WInrange => b"w-inrange".as_slice(),
        Leaf::WNotinrange => b"w-notinrange".as_slice(),
        Leaf::WInintervalset => b"w-inintervalset".as_slice(),
        Leaf::Always => b"true".as_slice(),
        Leaf::Never => b"false".as_slice(),
    }
}

/// The word of a form.
pub fn form_text(form: Form) -> &'static [u8]
    ensures { result.now ≡ form_text form }
{
    match form {
        Form::Leaf(leaf) => leaf_text(leaf),
        Form::Gather(Gather::Or) => b"watched-or".as_slice(),
        Form::Gather(Gather::And) => b"watched-and".as_slice(),
        Form::Tie(Tie::Reify) => b"reify".as_slice(),
        Form::Tie(Tie::Reifyimply) => b"reifyimply".as_slice(),
    }
}

// The form of these with the word of these bytes.
fn form_in(forms: &[Form], bytes: &[u8]) -> Option<Form>
    ensures { result ≡ which_of form_token forms.now (word bytes.now) }
{
    let mut left = forms;
    while let [form, others @ ..] = left {
        if bytes == form_text(*form) {
            return Some(*form);
        }
        left = others;
    }
    None
}

/// The form with the word of these bytes. None exactly where no form has it.
pub fn form_of(bytes: &[u8]) -> Option<Form>
    ensures { result ≡ form_of (word bytes.now) }
{
    form_in(&FORMS, bytes)
}

/// The arguments of a form, in order.
pub fn arguments_of(leaf: Leaf) -> &'static [Argument]
    ensures { result.now ≡ (form_line leaf).takes }
{
    match leaf {
        Leaf::Eq | Leaf::Diseq | Leaf::Watchless | Leaf::Minuseq | Leaf::Abs => &[
            Argument::Term,
            Argument::Term,
        ],
        Leaf::Ineq => &[Argument::Term, Argument::Term, Argument::Number],
        Leaf::Difference | Leaf::Product | Leaf::Div | Leaf::Modulo => &[
            Argument::Term,
            Argument::Term,
            Argument::Term,
        ],
        Leaf::Max | Leaf::Min => &[Argument::Vector(Places::Some), Argument::Term],
        Leaf::Sumleq | Leaf::Sumgeq | Leaf::Nvalueleq => &[
            Argument::Vector(Places::Any),
            Argument::Term,
        ],
        Leaf::Weightedsumleq | Leaf::Weightedsumgeq => &[
            Argument::Numbers(Numbers::Weights),
            Argument::Vector(Places::Alike),
            Argument::Term,
        ],
        Leaf::Watchsumleq | Leaf::Watchsumgeq => &[
            Argument::Vector(Places::Bits),
            Argument::Number,
        ],
        Leaf::Litsumgeq => &[
            Argument::Vector(Places::Any),
            Argument::Numbers(Numbers::Alike),
            Argument::Number,
        ],
        Leaf::Element | Leaf::Watchelement | Leaf::ElementOne | Leaf::WatchelementOne => &[
            Argument::Vector(Places::Any),
            Argument::Term,
            Argument::Term,
        ],
        Leaf::Table | Leaf::Negativetable => &[Argument::Vector(Places::Some), Argument::Tuples],
        Leaf::Alldiff => &[Argument::Vector(Places::Any)],
        Leaf::Lexleq | Leaf::Lexless | Leaf::Watchvecneq => &[
            Argument::Vector(Places::Any),
            Argument::Vector(Places::Alike),
        ],
        Leaf::Hamming => &[
            Argument::Vector(Places::Any),
            Argument::Vector(Places::Alike),
            Argument::Number,
        ],
        Leaf::Occurrence => &[
            Argument::Vector(Places::Any),
            Argument::Number,
            Argument::Term,
        ],
        Leaf::Occurrenceleq | Leaf::Occurrencegeq => &[
            Argument::Vector(Places::Any),
            Argument::Number,
            Argument::Number,
        ],
        Leaf::WLiteral | Leaf::WNotliteral => &[Argument::Term, Argument::Number],
        Leaf::WInset | Leaf::WNotinset => &[Argument::Term, Argument::Numbers(Numbers::Any)],
        Leaf::WInrange | Leaf::WNotinrange => &[Argument::Term, Argument::Range],
        Leaf::WInintervalset => &[Argument::Term, Argument::Numbers(Numbers::Pairs)],
        Leaf::Always | Leaf::Never => &[],
    }
}
