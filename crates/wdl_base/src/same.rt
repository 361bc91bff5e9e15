ghost use Rattle.std.specs.Prelude.{◌≡◌};
ghost use Rattle.wdl_base.specs.Same as spec;

use crate::body::Laid;
use crate::place::Segment;
use crate::request::{Attribute, Request};
use crate::text::Text;

fn same_segment(a: &Segment, b: &Segment) -> bool
    ensures { result ≡ spec.same_segment a.now b.now }
{
    match (a, b) {
        (Segment::Call(a), Segment::Call(b)) => a.same(b),
        (Segment::Scatter(a), Segment::Scatter(b)) => *a == *b,
        (Segment::If(a), Segment::If(b)) => *a == *b,
        (Segment::Index(a), Segment::Index(b)) => *a == *b,
        _ => false,
    }
}

/// Whether two places are equal. It takes no memory.
pub fn same_place(mut a: &[Segment], mut b: &[Segment]) -> bool
    ensures { result ≡ spec.same_place a.entry.now b.entry.now }
{
    while let [x, xs @ ..] = a {
        let [y, ys @ ..] = b else {
            return false;
        };
        if !same_segment(x, y) {
            return false;
        }
        a = xs;
        b = ys;
    }
    match b {
        [] => true,
        [..] => false,
    }
}

fn same_laid(mut a: &[Laid], mut b: &[Laid]) -> bool
    ensures { result ≡ spec.same_laid a.entry.now b.entry.now }
{
    while let [x, xs @ ..] = a {
        let [y, ys @ ..] = b else {
            return false;
        };
        if !(x.name.same(&y.name) && x.body.same(&y.body)) {
            return false;
        }
        a = xs;
        b = ys;
    }
    match b {
        [] => true,
        [..] => false,
    }
}

fn same_attributes(mut a: &[Attribute], mut b: &[Attribute]) -> bool
    ensures { result ≡ spec.same_attributes a.entry.now b.entry.now }
{
    while let [x, xs @ ..] = a {
        let [y, ys @ ..] = b else {
            return false;
        };
        if !(x.name.same(&y.name) && x.value.same(&y.value)) {
            return false;
        }
        a = xs;
        b = ys;
    }
    match b {
        [] => true,
        [..] => false,
    }
}

fn same_texts(mut a: &[Text], mut b: &[Text]) -> bool
    ensures { result ≡ spec.same_texts a.entry.now b.entry.now }
{
    while let [x, xs @ ..] = a {
        let [y, ys @ ..] = b else {
            return false;
        };
        if !x.same(y) {
            return false;
        }
        a = xs;
        b = ys;
    }
    match b {
        [] => true,
        [..] => false,
    }
}

/// Whether two requests are equal. It takes no memory.
pub fn same_request(a: &Request, b: &Request) -> bool
    ensures { result ≡ spec.same_request a.now b.now }
{
    same_place(a.place.as_slice(), b.place.as_slice())
        && a.attempt == b.attempt
        && a.dir.same(&b.dir)
        && a.command.same(&b.command)
        && same_laid(a.files.as_slice(), b.files.as_slice())
        && same_attributes(a.attributes.as_slice(), b.attributes.as_slice())
        && same_texts(a.inputs.as_slice(), b.inputs.as_slice())
        && a.reads == b.reads
}
