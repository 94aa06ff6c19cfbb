//! The words of the command line, and what they ask for.

ghost use Rattle.std.specs.Prelude.{◌≡◌, ◌++◌, ℕ, ℤ, List, IfSome, IfNone, codes};
ghost use Rattle.vortex_select.specs.Words.{texts, operator_word, IsInteger, IsQuery};
ghost use Rattle.vortex_select.specs.declared.words.Query.{Query};
ghost use Rattle.vortex_value.specs.declared.operator.Operator.{Operator};

use vortex_value::Operator;

/// The rows that bear an operator to a constant.
#[derive(Clone, Copy, Debug, PartialEq, Eq)]
pub struct Query {
    pub operator: Operator,
    pub constant: i64,
}

/// What the words ask for, and nothing where they are others.
pub(crate) fn query_of(words: &[String]) -> Option<Query>
    ensures found { IfSome result (IsQuery (texts words.now)) }
    ensures none { IfNone result ((query : Query) → IsQuery (texts words.now) query → ⊥) }
{
    let [verb, path, operator, literal] = words else {
        return None;
    };
    if verb.as_str() != "select" || path.as_str() != "." {
        return None;
    }
    let operator = operator_named(operator.as_str())?;
    let constant = constant_of(literal.as_str())?;
    Some(Query { operator, constant })
}

fn operator_named(word: &str) -> Option<Operator>
    ensures found { IfSome result (λ operator. word.now ≡ operator_word operator) }
    ensures none { IfNone result ((operator : Operator) → word.now ≡ operator_word operator → ⊥) }
{
    match word {
        "eq" => Some(Operator::Eq),
        "ne" => Some(Operator::NotEq),
        "lt" => Some(Operator::Lt),
        "le" => Some(Operator::Lte),
        "gt" => Some(Operator::Gt),
        "ge" => Some(Operator::Gte),
        _ => None,
    }
}

fn constant_of(word: &str) -> Option<i64>
    ensures found { IfSome result (λ n.
        (text : List ℕ) × (word.now ≡ codes "i64:" ++ text) × IsInteger text n) }
    ensures none { IfNone result ((text : List ℕ) (n : ℤ)
        → word.now ≡ codes "i64:" ++ text → IsInteger text n → ⊥) }
{
    integer(word.strip_prefix("i64:")?)
}

// Std takes a plus before the digits, which is no spelling here.
fn integer(text: &str) -> Option<i64>
    ensures found { IfSome result (IsInteger text.now) }
    ensures none { IfNone result ((n : ℤ) → IsInteger text.now n → ⊥) }
{
    if text.as_bytes().first() == Some(&b'+') {
        return None;
    }
    text.parse::<i64>().ok()
}
