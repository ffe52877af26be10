//! Faces that lie over the groups of matches.

ghost use Rattle.std.specs.Prelude.{◌≡◌, ◌≤◌, ◌++◌, map, flat_map, length, IfOk, OnOk};
ghost use Rattle.text_model.specs.declared.TheConstants.{MAX_CHARS};
ghost use Rattle.compact_chars.specs.Rows.{chars_of};
ghost use Rattle.highlight_paint.specs.Overs.{seen_group, seen_overs};

use crate::painter::GroupFace;
use crate::walking::{walk_start, walk_to};
use compact_chars::CharsRef;
use face_grounds::Over;
use face_texts::FaceTable;
use kak_faces::Face;
use regex_ports::GroupSpan;
use std::alloc::{AllocError, Global};

/// A group of a pattern by its number, and the face in which its characters are seen.
#[derive(Clone, Copy, Debug)]
pub(crate) struct SeenGroup {
    pub(crate) group: u32,
    pub(crate) face: Face,
}

// A group in the face in which it is seen.
fn seen_group(group: &GroupFace, faces: &FaceTable) -> SeenGroup
    ensures { result ≡ seen_group faces.now group.now }
{
    SeenGroup {
        group: group.group,
        face: faces.shown(&group.face),
    }
}

/// Groups in the faces in which they are seen.
pub(crate) fn seen_groups(
    alloc: Global,
    groups: &[GroupFace],
    faces: &FaceTable,
) -> Result<Vec<SeenGroup>, AllocError>
    ensures { IfOk result (λ v. v.items ≡ map (seen_group faces.now) groups.now) }
{
    let mut seen = Vec::with_capacity(alloc, groups.len())?;
    for group in groups {
        seen.push(seen_group(group, faces))?;
    }
    Ok(seen)
}

// Adds the face of a group over its characters, match by match. It costs the line up to the last match, and more only where
// a range begins before the one that was found before it ends.
fn push_group(
    overs: &mut Vec<Over>,
    found: &[GroupSpan],
    group: SeenGroup,
    line: CharsRef<'_>,
) -> Result<(), AllocError>
    requires { length (chars_of line) ≤ MAX_CHARS }
    ensures { OnOk result (overs.new.items ≡ overs.old.items ++ seen_overs (chars_of line.entry) found.now group) }
{
    let mut walk = walk_start();
    for one in found {
        if one.group != group.group as usize {
            continue;
        }
        let begin = walk_to(line, walk, one.span.start);
        walk = walk_to(line, begin, one.span.end);
        overs.push(Over {
            from: begin.passed,
            to: walk.passed,
            face: group.face,
        })?;
    }
    Ok(())
}

/// Adds the faces of groups over their characters, one group after another.
pub(crate) fn push_groups(
    overs: &mut Vec<Over>,
    found: &[GroupSpan],
    groups: &[SeenGroup],
    line: CharsRef<'_>,
) -> Result<(), AllocError>
    requires { length (chars_of line) ≤ MAX_CHARS }
    ensures { OnOk result (overs.new.items ≡ overs.old.items ++ flat_map (seen_overs (chars_of line.entry) found.now) groups.now) }
{
    for group in groups {
        push_group(overs, found, *group, line)?;
    }
    Ok(())
}
