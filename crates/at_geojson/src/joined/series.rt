//! Lists of positions one behind another in an array, joined as they come: of each nothing is kept but its path.

ghost use Rattle.std.specs.Prelude.{◌≡◌, ◌++◌, ◌∷◌, [], All, IfOk, None, true};
ghost use Rattle.std.specs.List.{list_all};
ghost use Rattle.at_query.specs.Keeping.{kept};
ghost use Rattle.at_geojson.specs.Atoms.{IsOwn};
ghost use Rattle.at_geojson.specs.Arrays.{Adds, ClosesItems};
ghost use Rattle.at_geojson.specs.Gathering.{path_in};
ghost use Rattle.at_geojson.specs.Series.{is_list as list_is, as_series, lines_of, rings_of, paths_of, Lengthens};
ghost use Rattle.at_geojson.specs.Series.{Begins, Joins, JoinsIf, IfOwnSeries, JoinsLists};

use crate::asked::GeoAlgebra;
use crate::atoms::atom::{GeoAtom, Lists, ListsAtom, SeriesAtom};
use crate::atoms::sorts::at_of;
use crate::coordinates::kinds::{fault_as_line, fault_as_ring};
use at_geom::{Path, Pos};
use at_text::{Fault, Memory, first_fault};
use std::alloc::Global;
use std::mem::replace;

/// The first fault as lines.
fn fault_as_lines(atom: &GeoAtom) -> Option<Fault>
    ensures { result ≡ lines_of atom.now }
{
    match atom {
        GeoAtom::Series(series) => series.lists.as_lines,
        _ => fault_as_line(atom),
    }
}

/// The first fault as rings.
fn fault_as_rings(atom: &GeoAtom) -> Option<Fault>
    ensures { result ≡ rings_of atom.now }
{
    match atom {
        GeoAtom::Series(series) => series.lists.as_rings,
        _ => fault_as_ring(atom),
    }
}

/// A second list of the same positions, with no more room than for these.
fn copy_positions(alloc: Global, path: &[Pos]) -> Result<Vec<Pos>, Memory>
    ensures { IfOk result (λ r. r.items ≡ path.now) }
{
    let mut items = Vec::with_capacity(alloc, path.len())?;
    items.extend_from_slice(path)?;
    Ok(items)
}

/// The same positions with no more room than they need. A list with room left is copied and let go as a whole, so that
/// what it lay in serves the next.
pub fn exact_path(alloc: Global, path: Vec<Pos>) -> Result<Vec<Pos>, Memory>
    ensures { IfOk result (λ exact. exact.items ≡ path.items) }
{
    if path.capacity() == path.len() {
        return Ok(path);
    }
    copy_positions(alloc, path.as_slice())
}

/// The positions of a list.
fn positions_of(alloc: Global, atom: GeoAtom) -> Vec<Pos>
    ensures { result.items ≡ path_in atom }
{
    match atom {
        GeoAtom::Points(list) => Box::into_inner(list.points).path,
        _ => Vec::new(alloc),
    }
}

/// The path of a list, with no more room than it needs where it has to be exact.
fn path_of(alloc: Global, exact: bool, atom: GeoAtom) -> Result<Path, Memory>
    ensures { IfOk result (λ path. path ≡ path_in atom) }
{
    let positions = positions_of(alloc, atom);
    if exact {
        Ok(Path::from_vec(exact_path(alloc, positions)?))
    } else {
        Ok(Path::from_vec(positions))
    }
}

/// Paths, and that of one list behind them, where shapes are kept.
fn with_path(
    alloc: Global,
    needs: bool,
    exact: bool,
    paths: Vec<Path>,
    atom: GeoAtom,
) -> Result<Vec<Path>, Memory>
    ensures { IfOk result (λ all. all.items ≡ paths.items ++ kept needs (path_in atom ∷ [])) }
{
    if !needs {
        return Ok(paths);
    }
    let mut paths = paths;
    let path = path_of(alloc, exact, atom)?;
    paths.push(path)?;
    Ok(paths)
}

/// Paths, and further ones behind them.
fn with_further(paths: Vec<Path>, more: Vec<Path>) -> Result<Vec<Path>, Memory>
    ensures { IfOk result (λ all. all.items ≡ paths.items ++ more.items) }
{
    let mut paths = paths;
    let mut more = more;
    paths.append(&mut more)?;
    Ok(paths)
}

/// Paths, and those of an atom behind them, where shapes are kept.
fn with_paths(
    alloc: Global,
    needs: bool,
    paths: Vec<Path>,
    atom: GeoAtom,
) -> Result<Vec<Path>, Memory>
    ensures { IfOk result (λ all. all.items ≡ paths.items ++ paths_of needs atom) }
{
    match atom {
        GeoAtom::Series(series) => with_further(paths, Box::into_inner(series.lists).paths),
        other => with_path(alloc, needs, true, paths, other),
    }
}

/// The same, or none where they are never told.
fn told_paths(
    alloc: Global,
    told: bool,
    needs: bool,
    paths: Vec<Path>,
    atom: GeoAtom,
) -> Result<Vec<Path>, Memory>
    ensures { IfOk result (λ all. all.items ≡ kept told (paths.items ++ paths_of needs atom)) }
{
    if told {
        with_paths(alloc, needs, paths, atom)
    } else {
        Ok(Vec::new(alloc))
    }
}

/// What is kept of lists, and of those of an atom behind them. Their paths are told while they have no fault as lines,
/// or none as rings.
fn joined_lists(alloc: Global, needs: bool, lists: Lists, atom: GeoAtom) -> Result<Lists, Memory>
    ensures { IfOk result (Lengthens needs lists atom) }
{
    let as_lines = first_fault(lists.as_lines, fault_as_lines(&atom));
    let as_rings = first_fault(lists.as_rings, fault_as_rings(&atom));
    let told = as_lines.is_none() || as_rings.is_none();
    Ok(Lists {
        paths: told_paths(alloc, told, needs, lists.paths, atom)?,
        as_lines,
        as_rings,
    })
}

/// What is kept of no lists, to stand for a while where others are taken out.
fn no_lists(alloc: Global) -> Lists {
    Lists {
        paths: Vec::new(alloc),
        as_lines: None,
        as_rings: None,
    }
}

/// A series of one list.
fn one_list(alloc: Global, needs: bool, exact: bool, atom: GeoAtom) -> Result<SeriesAtom, Memory>
    requires { as_series atom ≡ None }
    ensures { IfOk result (Begins needs atom) }
{
    let at = at_of(&atom);
    let as_lines = fault_as_line(&atom);
    let as_rings = fault_as_ring(&atom);
    let lists = Lists {
        paths: with_path(alloc, needs, exact, Vec::new(alloc), atom)?,
        as_lines,
        as_rings,
    };
    Ok(SeriesAtom {
        at,
        lists: Box::new(alloc, lists)?,
    })
}

/// A series of one list, or the series itself.
fn new_series(alloc: Global, needs: bool, exact: bool, atom: GeoAtom) -> Result<SeriesAtom, Memory>
    ensures { IfOk result (Begins needs atom) }
{
    match atom {
        GeoAtom::Series(series) => Ok(series),
        other => one_list(alloc, needs, exact, other),
    }
}

/// A series, and the lists of an atom behind it.
fn joined_series(
    alloc: Global,
    needs: bool,
    series: SeriesAtom,
    atom: GeoAtom,
) -> Result<SeriesAtom, Memory>
    ensures { IfOk result (Joins needs series atom) }
{
    let at = series.at.min(at_of(&atom));
    let mut lists = series.lists;
    let before = replace(&mut *lists, no_lists(alloc));
    *lists = joined_lists(alloc, needs, before, atom)?;
    Ok(SeriesAtom { at, lists })
}

/// The lists of two atoms one behind the other, put behind those of an array's items.
pub fn join_lists(
    alloc: Global,
    algebra: &GeoAlgebra,
    items: &mut Vec<GeoAtom>,
    last: GeoAtom,
    atom: GeoAtom,
) -> Result<(), Memory>
    requires items { All (IsOwn algebra.now) items.old.items }
    requires last { IsOwn algebra.now last }
    requires atom { IsOwn algebra.now atom }
    requires lists { list_is last ≡ true }
    requires list { list_is atom ≡ true }
    ensures own { IfOk result (λ u. All (IsOwn algebra.now) items.new.items) }
    ensures fold { IfOk result (λ u. Adds algebra.now (items.old.items ++ last ∷ []) atom items.new.items) }
{
    let needs = algebra.needs_shapes();
    let before = new_series(alloc, needs, true, last)?;
    let joined = joined_series(alloc, needs, before, atom)?;
    items.push(GeoAtom::Series(joined))?;
    Ok(())
}

/// A series behind which the lists of an atom come, or those alone. One list alone isn't copied.
fn series_behind(
    alloc: Global,
    needs: bool,
    before: Option<SeriesAtom>,
    atom: GeoAtom,
) -> Result<SeriesAtom, Memory>
    ensures { IfOk result (JoinsIf needs before atom) }
{
    match before {
        Some(series) => joined_series(alloc, needs, series, atom),
        None => new_series(alloc, needs, false, atom),
    }
}

/// All lists as one series, where there are some.
fn one_series(
    alloc: Global,
    algebra: &GeoAlgebra,
    atoms: Vec<GeoAtom>,
) -> Result<Option<SeriesAtom>, Memory>
    requires { All (IsOwn algebra.now) atoms.items }
    ensures own { IfOk result (IfOwnSeries algebra.now) }
    ensures joins { IfOk result (JoinsLists algebra.now atoms.items) }
{
    let needs = algebra.needs_shapes();
    let mut joined = None;
    for atom in atoms {
        joined = Some(series_behind(alloc, needs, joined, atom)?);
    }
    Ok(joined)
}

/// An array of lists of positions, of which some are a series.
pub fn series_array(
    alloc: Global,
    algebra: &GeoAlgebra,
    at: u32,
    items: Vec<GeoAtom>,
) -> Result<GeoAtom, Memory>
    requires own { All (IsOwn algebra.now) items.items }
    requires lists { list_all list_is items.items ≡ true }
    ensures own { IfOk result (IsOwn algebra.now) }
    ensures fold { IfOk result (ClosesItems algebra.now at items.items) }
{
    match one_series(alloc, algebra, items)? {
        Some(SeriesAtom { at: least, lists }) => Ok(GeoAtom::Lists(ListsAtom { at, least, lists })),
        None => Ok(GeoAtom::Empty(at)),
    }
}
