//! The lines that begin scenes.
use crate::fault::Fault;
use crate::numbers::Numbers;
use crate::scenes::Scene;
use crate::ways::{SOCKETS, way_named};
use std::alloc::Global;

fn is_scene_name(name: &str) -> bool {
    !name.is_empty()
        && name.bytes().all(|b| b.is_ascii_lowercase() || b.is_ascii_digit() || b == b'_')
}

fn place_of(scenes: &[Scene], name: &str) -> Option<usize> {
    scenes.iter().position(|scene| scene.name.as_str() == name)
}

/// A scene that begins with a fresh room.
fn first_scene(alloc: Global, line: usize, name: &str) -> Result<Scene, Fault> {
    Ok(Scene {
        line,
        name: String::from_str(alloc, name)?,
        before: Vec::new(alloc),
        left_out: Vec::new(alloc),
        numbers: Numbers::new(alloc),
        steps: Vec::new(alloc),
    })
}

/// A scene that goes on from another one.
fn later_scene(
    alloc: Global,
    scenes: &[Scene],
    line: usize,
    name: &str,
    other: &str,
) -> Result<Scene, Fault> {
    let Some(place) = place_of(scenes, other) else {
        return Err(Fault::Because("a scene after one that isn't there"));
    };
    let Some(other) = scenes.get(place) else {
        return Err(Fault::Because("a scene after one that isn't there"));
    };
    let mut scene = first_scene(alloc, line, name)?;
    go_on(&mut scene, other, place)?;
    Ok(scene)
}

/// Lets a scene go on from another one, which stands at this place.
fn go_on(scene: &mut Scene, other: &Scene, place: usize) -> Result<(), Fault> {
    scene.before = other.before.clone()?;
    scene.before.push(place)?;
    scene.left_out = other.left_out.clone()?;
    scene.numbers = other.numbers.copy()?;
    Ok(())
}

/// Leaves a scene out in the ways of these words.
fn leave_out(scene: &mut Scene, words: &str) -> Result<(), Fault> {
    for word in words.split(' ') {
        match way_named(word) {
            Some(way) => scene.left_out.push(way)?,
            None if word == SOCKETS => {}
            None => return Err(Fault::Because("an unknown way")),
        }
    }
    Ok(())
}

/// The words of a line that begins a scene.
#[derive(Clone, Copy)]
struct Heading<'a> {
    name: &'a str,
    after: Option<&'a str>,
    not: Option<&'a str>,
}

/// The text before a word, and what stands behind it where it is there.
fn split<'a>(text: &'a str, word: &str) -> (&'a str, Option<&'a str>) {
    match text.split_once(word) {
        Some((front, behind)) => (front, Some(behind)),
        None => (text, None),
    }
}

fn heading_of(text: &str) -> Heading<'_> {
    let (text, not) = split(text, " not ");
    let (name, after) = split(text, " after ");
    Heading { name, after, not }
}

fn begun(
    alloc: Global,
    scenes: &[Scene],
    line: usize,
    heading: Heading<'_>,
) -> Result<Scene, Fault> {
    match heading.after {
        Some(other) => later_scene(alloc, scenes, line, heading.name, other),
        None => first_scene(alloc, line, heading.name),
    }
}

/// The scene that `NAME [after OTHER] [not WAY..]` begins.
pub fn read_heading(
    alloc: Global,
    scenes: &[Scene],
    line: usize,
    text: &str,
) -> Result<Scene, Fault> {
    let heading = heading_of(text);
    if !is_scene_name(heading.name) {
        return Err(Fault::Because("a scene's name is of lower-case letters, digits and _"));
    }
    if place_of(scenes, heading.name).is_some() {
        return Err(Fault::Because("a scene name twice"));
    }
    let mut scene = begun(alloc, scenes, line, heading)?;
    if let Some(words) = heading.not {
        leave_out(&mut scene, words)?;
    }
    Ok(scene)
}
