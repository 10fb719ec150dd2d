//! Playing the scenes of a file.
use crate::differences::Differences;
use crate::fault::Fault;
use crate::rooms::users;
use crate::scenes::{Scene, Step};
use crate::ways::WAYS;
use room_records::Roster;
use room_wire::Routes;
use std::alloc::Global;

/// What a way plays.
#[derive(Clone, Copy)]
pub struct Play<'a> {
    pub alloc: Global,
    pub routes: &'a Routes,
    pub roster: &'a Roster,
    /// The line of the scene.
    pub line: usize,
    /// What the room was through before the scene.
    pub before: &'a [&'a Step],
    pub steps: &'a [Step],
}

fn add_steps<'a>(steps: &'a [Step], all: &mut Vec<&'a Step>) -> Result<(), Fault> {
    for step in steps {
        all.push(step)?;
    }
    Ok(())
}

/// The steps of the scenes that come before a scene, in their order.
fn steps_before<'a>(
    alloc: Global,
    scenes: &'a [Scene],
    scene: &Scene,
) -> Result<Vec<&'a Step>, Fault> {
    let mut all = Vec::new(alloc);
    for place in &scene.before {
        if let Some(earlier) = scenes.get(*place) {
            add_steps(earlier.steps.as_slice(), &mut all)?;
        }
    }
    Ok(all)
}

/// Plays a scene in each way that fits.
fn play_scene(
    play: &Play<'_>,
    scene: &Scene,
    differences: &mut Differences<'_>,
) -> Result<(), Fault> {
    for (word, way) in &WAYS {
        if !scene.left_out.contains(way) {
            differences.begin(*word);
            if let Err(fault) = way.play(play, differences) {
                differences.tell(play.line, fault.text())?;
            }
        }
    }
    Ok(())
}

/// Plays a scene behind those that come before it.
fn play_behind(
    alloc: Global,
    scenes: &[Scene],
    scene: &Scene,
    routes: &Routes,
    roster: &Roster,
    differences: &mut Differences<'_>,
) -> Result<(), Fault> {
    let before = steps_before(alloc, scenes, scene)?;
    let play = Play {
        alloc,
        routes,
        roster,
        line: scene.line,
        before: before.as_slice(),
        steps: scene.steps.as_slice(),
    };
    play_scene(&play, scene, differences)
}

/// Plays the scenes of a file. Differences are told.
pub fn play_scenes(
    alloc: Global,
    scenes: &[Scene],
    differences: &mut Differences<'_>,
) -> Result<(), Fault> {
    let Ok(routes) = Routes::new(alloc) else {
        return Err(Fault::Memory);
    };
    let roster = users(alloc)?;
    for scene in scenes {
        play_behind(alloc, scenes, scene, &routes, &roster, differences)?;
    }
    Ok(())
}
