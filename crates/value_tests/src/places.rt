//! Places and requests, and the texts that places are read from.

use std::alloc::Global;
use std::test::Fail;
use wdl_value::{
    Answer, Attribute, Body, Entry, Items, Laid, Name, Place, PlaceFault, Request, Segment, Source,
    Text, place_of, place_text, same_place, same_request,
};

/// The place of a call in a condition in a scatter.
fn place_of_call(alloc: Global, name: &str) -> Result<Place, Fail> {
    let mut place = Items::new(alloc);
    place.push(Segment::Scatter(0))?;
    place.push(Segment::Index(12))?;
    place.push(Segment::If(3))?;
    place.push(Segment::Call(Name::new(alloc, name)?))?;
    Ok(place)
}

#[test]
fn places_of_two_calls_differ(rt: HostRuntime) -> Result<(), Fail> {
    let alloc = rt.alloc();
    let place = place_of_call(alloc, "say")?;
    let other = place_of_call(alloc, "ask")?;
    assert!(rt; same_place(place.as_slice(), place.as_slice()));
    assert!(rt; !same_place(place.as_slice(), other.as_slice()));
    Ok(())
}

/// The attribute `cpu`, alone.
fn attributes_of(alloc: Global, cpu: &str) -> Result<Items<Attribute>, Fail> {
    let mut attributes = Items::new(alloc);
    attributes.push(Attribute {
        name: Name::new(alloc, "cpu")?,
        value: Text::new(alloc, cpu)?,
    })?;
    Ok(attributes)
}

/// The request of one call, with a file laid down and another one given.
fn request_of(alloc: Global, command: &str, cpu: &str) -> Result<Request, Fail> {
    let mut files = Items::new(alloc);
    files.push(Laid {
        name: Text::new(alloc, ".written-0")?,
        body: Text::new(alloc, "a\nb\n")?,
    })?;
    let mut inputs = Items::new(alloc);
    inputs.push(Text::new(alloc, "/data/reads.fq")?)?;
    Ok(Request {
        place: place_of_call(alloc, "say")?,
        attempt: 0,
        dir: Text::new(alloc, "/tmp/wdl-run/say")?,
        command: Text::new(alloc, command)?,
        files,
        attributes: attributes_of(alloc, cpu)?,
        inputs,
        reads: true,
    })
}

#[test]
fn a_copied_entry_has_the_same_request(rt: HostRuntime) -> Result<(), Fail> {
    let alloc = rt.alloc();
    let request = request_of(alloc, "echo hi", "1")?;
    let Ok(answer) = Answer::new(0, Body::Long, Body::Long, Items::new(alloc)) else {
        assert!(rt; false);
        return Ok(());
    };
    let entry = Entry {
        request,
        answer,
        source: Source::Launched,
    };
    let copy = entry.copy(alloc)?;
    assert!(rt; same_request(&copy.request, &entry.request));
    assert!(rt; !same_request(&copy.request, &request_of(alloc, "echo ho", "1")?));
    assert!(rt; !same_request(&copy.request, &request_of(alloc, "echo hi", "2")?));
    Ok(())
}

/// Whether a text is that of the place that it is read as.
fn is_read(alloc: Global, s: &str) -> Result<bool, Fail> {
    match place_of(alloc, s) {
        Ok(place) => Ok(place_text(alloc, &place)?.is(s)),
        Err(_) => Ok(false),
    }
}

/// Texts of places, between bars, and texts of none.
const PLACES: &str = ".|say|scatter-0/12/if-3/say|0|4294967295";

const NO_PLACES: &str =
    "|/|a/|/a|./a|..|scatter|if|scatter-|if--1|scatter-01|00|+1|4294967296|a-1|a b";

#[test]
fn places_are_read_from_their_texts_alone(rt: HostRuntime) -> Result<(), Fail> {
    let alloc = rt.alloc();
    for text in PLACES.split('|') {
        assert!(rt; is_read(alloc, text)?, "{text:?}");
    }
    for text in NO_PLACES.split('|') {
        let read = place_of(alloc, text);
        assert!(rt; matches!(&read, Err(PlaceFault::NotAPlace)), "{text:?}");
    }
    Ok(())
}
