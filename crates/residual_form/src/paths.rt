//! The paths by which the objects of the realm are named.

ghost use Rattle.std.specs.Prelude.{◌≡◌, map};
ghost use Rattle.std.specs.List.{list_any};
ghost use Rattle.js_tree.specs.declared.expression.ExprForm.{out-ExprForm};
ghost use Rattle.residual_form.specs.Paths as spec;

use js_tree::{Expr, ExprForm};

/// Of each object that is there from the start (15), in the order of their numbers and without the global object: the names
/// that lead to it from `this`, the last one first.
pub const PATHS: [&[&[u8]]; 40] = [
    &[b"prototype", b"Object"],
    &[b"Object"],
    &[b"prototype", b"Function"],
    &[b"Function"],
    &[b"prototype", b"Array"],
    &[b"Array"],
    &[b"prototype", b"Error"],
    &[b"Error"],
    &[b"prototype", b"TypeError"],
    &[b"TypeError"],
    &[b"prototype", b"RangeError"],
    &[b"RangeError"],
    &[b"prototype", b"ReferenceError"],
    &[b"ReferenceError"],
    &[b"hasOwnProperty", b"prototype", b"Object"],
    &[b"isPrototypeOf", b"prototype", b"Object"],
    &[b"propertyIsEnumerable", b"prototype", b"Object"],
    &[b"create", b"Object"],
    &[b"getPrototypeOf", b"Object"],
    &[b"getOwnPropertyDescriptor", b"Object"],
    &[b"defineProperty", b"Object"],
    &[b"keys", b"Object"],
    &[b"preventExtensions", b"Object"],
    &[b"isExtensible", b"Object"],
    &[b"seal", b"Object"],
    &[b"isSealed", b"Object"],
    &[b"freeze", b"Object"],
    &[b"isFrozen", b"Object"],
    &[b"call", b"prototype", b"Function"],
    &[b"apply", b"prototype", b"Function"],
    &[b"concat", b"prototype", b"Array"],
    &[b"join", b"prototype", b"Array"],
    &[b"pop", b"prototype", b"Array"],
    &[b"push", b"prototype", b"Array"],
    &[b"slice", b"prototype", b"Array"],
    &[b"indexOf", b"prototype", b"Array"],
    &[b"forEach", b"prototype", b"Array"],
    &[b"map", b"prototype", b"Array"],
    &[b"filter", b"prototype", b"Array"],
    &[b"isArray", b"Array"],
];

/// `Object.create` (15.2.3.5).
pub const CREATE: [&[u8]; 2] = [b"create", b"Object"];

/// `Object.defineProperty` (15.2.3.6).
pub const DEFINE_PROPERTY: [&[u8]; 2] = [b"defineProperty", b"Object"];

/// `Object.preventExtensions` (15.2.3.10).
pub const PREVENT_EXTENSIONS: [&[u8]; 2] = [b"preventExtensions", b"Object"];

/// Whether an expression is `this`.
pub fn is_this(e: &Expr) -> bool
    ensures { result ≡ spec.is_this (out-ExprForm e.now.form) }
{
    matches!(&*e.form, ExprForm::This)
}

/// Whether an expression is the chain of these names from `this`, the last one first.
pub fn leads(e: &Expr, path: &[&[u8]]) -> bool
    ensures { result ≡ spec.leads (map (λ name. name.now) path.now) e.now }
{
    let [name, path @ ..] = path else {
        return is_this(e);
    };
    match &*e.form {
        ExprForm::Member(object, key) => key.is_spelled(name) && leads(object, path),
        _ => false,
    }
}

fn is_among(e: &Expr, paths: &[&[&[u8]]]) -> bool
    ensures { result ≡ list_any (λ path. spec.leads (map (λ name. name.now) path.now) e.now) paths.now }
{
    paths.iter().any(|path| leads(e, path))
}

/// Whether an expression is the path of an object of the realm.
#[tactic(auto, unfolding(crate::specs::Paths::is_path))]
pub fn is_path(e: &Expr) -> bool
    ensures { result ≡ spec.is_path e.now }
{
    is_among(e, &PATHS)
}
