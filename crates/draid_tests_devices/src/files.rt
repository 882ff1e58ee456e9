ghost use Rattle.std.specs.Prelude.{◌≡◌};
ghost use Rattle.draid_spec.specs.Geometry.{IsGeometry};

use crate::shelf::{has_left, small_geometry, use_devices};
use draid_files::FileShelf;
use draid_rack::Rack;
use draid_shelf::Shelf;
use draid_spec::Geometry;
use std::fs;

/// A folder that wasn't there.
fn fresh_folder(rt: &HostRuntime) -> Option<String> {
    for number in 0..10_000_u32 {
        let path = format!(in rt.alloc(); "/tmp/dzpool-tests-{number}").ok()?;
        if fs::create_dir(rt, path.as_str()).is_ok() {
            return Some(path);
        }
    }
    None
}

fn shelf_of(rt: &HostRuntime, path: &str) -> Option<FileShelf> {
    let path = String::from_str(rt.alloc(), path).ok()?;
    Some(FileShelf::new(rt, path))
}

/// Whether a pool is made and used there, and another shelf gets none of its devices meanwhile.
fn makes_alone(rt: &HostRuntime, path: &str, geometry: &Geometry) -> bool
    requires geometry { IsGeometry geometry.now }
    requires sector { geometry.now.props.sector ≡ 512 }
{
    let (Some(mut shelf), Some(mut other)) = (shelf_of(rt, path), shelf_of(rt, path)) else {
        return false;
    };
    if shelf.has_pool() || Shelf::make(&mut shelf, rt.alloc(), geometry).is_err() {
        return false;
    }
    use_devices(&mut shelf, geometry)
        && other.has_pool()
        && other.take_uber().is_err()
        && other.take(1, geometry).is_err()
}

/// Whether a later shelf has what was written, the sector too that wasn't flushed.
fn has_all(rt: &HostRuntime, path: &str, geometry: &Geometry) -> bool
    requires { geometry.now.props.sector ≡ 512 }
{
    match shelf_of(rt, path) {
        Some(mut shelf) => shelf.has_pool() && has_left(&mut shelf, geometry, [7, 8], 3),
        None => false,
    }
}

/// Whether a leaf goes, and another one comes.
fn change_leaves(rt: &HostRuntime, path: &str, geometry: &Geometry) -> bool {
    let Some(mut shelf) = shelf_of(rt, path) else {
        return false;
    };
    match shelf.take(0, geometry) {
        Ok(mut kit) => {
            kit.rack.drop_leaf(0);
            kit.rack.add_leaf(9, 5).is_ok() && kit.rack.leaf_from(0) == Some(1)
        }
        Err(_) => false,
    }
}

/// Whether a later shelf finds it so.
fn has_other_leaves(rt: &HostRuntime, path: &str, geometry: &Geometry) -> bool {
    let Some(mut shelf) = shelf_of(rt, path) else {
        return false;
    };
    match shelf.take(0, geometry) {
        Ok(kit) => {
            kit.rack.leaf_from(0) == Some(1)
                && kit.rack.leaf_from(4) == Some(9)
                && kit.rack.sectors(9) == Some(5)
        }
        Err(_) => false,
    }
}

/// All of these in one folder, one after another; which of them are so.
fn rows(rt: &HostRuntime, path: &str, geometry: &Geometry) -> [bool; 4]
    requires geometry { IsGeometry geometry.now }
    requires sector { geometry.now.props.sector ≡ 512 }
{
    [
        makes_alone(rt, path, geometry),
        has_all(rt, path, geometry),
        change_leaves(rt, path, geometry),
        has_other_leaves(rt, path, geometry),
    ]
}

#[test]
fn a_folder_keeps_a_pool(rt: HostRuntime) {
    let Some(folder) = fresh_folder(&rt) else {
        assert!(rt; false, "no folder can be made in /tmp");
        return;
    };
    let rows = match small_geometry() {
        Ok(geometry) if geometry.props.sector == 512 => rows(&rt, folder.as_str(), &geometry),
        _ => [false; 4],
    };
    let removed = fs::remove_dir_all(&rt, folder.as_str());
    assert!(rt; rows == [true; 4], "{rows:?}");
    assert!(rt; removed.is_ok());
}
