//! Tables and differences.
ghost use Rattle.cad_files.specs.Building.{IsBuilt};

use crate::viewed_plans::{
    ENDED, FENCED, FIELD, MEADOW, POND, POND_EAST, Parts, SHIFTED, SLANTED, STUDDED, UNFENCED, plan,
};
use cad_views::{
    Plan, difference_text, metres_text, parcel_table, point_table, retired_table, source_table,
    string_table,
};
use std::alloc::Global;
use std::test::Fail;

// The table of a layer of a plan; `None` where there is none.
fn table(alloc: Global, parts: Parts, layer: &str) -> Option<Vec<u8>> {
    let Ok(plan) = plan(alloc, parts) else {
        return None;
    };
    match layer {
        "parcels" => parcel_table(alloc, &plan.map).ok(),
        "strings" => string_table(alloc, &plan.rows, &plan.map).ok(),
        "sources" => source_table(alloc, &plan.map).ok(),
        "retired" => retired_table(alloc, &plan.map).ok(),
        _ => point_table(alloc, &plan.map).ok(),
    }
}

// What differs between two plans; `None` where they can't be read.
fn differences(alloc: Global, old: Parts, new: Parts) -> Option<Vec<u8>> {
    let Ok(old) = plan(alloc, old) else {
        return None;
    };
    differences_from(alloc, &old, new)
}

// What differs between a plan and a newer one; `None` where that can't be read.
fn differences_from(alloc: Global, old: &Plan, new: Parts) -> Option<Vec<u8>>
    requires { IsBuilt old.now.rows old.now.map }
{
    let Ok(new) = plan(alloc, new) else {
        return None;
    };
    difference_text(alloc, &old.map, &new.map).ok()
}

#[test]
fn layers(rt: HostRuntime) -> Result<(), Fail> {
    for (layer, wanted) in [
        (
            "parcels",
            "number,label,area,doubled,sources,WKT\n7,Field & <pond>,10000.00,20000000000,1,\"POLYGON((0.000 0.000,\
            100.000 0.000,100.000 100.000,0.000 100.000,0.000 0.000))\"\n",
        ),
        (
            "strings",
            "number,from,to,left,right,sources,WKT\n11,1,2,7,0,1,\"LINESTRING(0.000 0.000,100.000 0.000)\"\n\
            12,2,3,7,0,,\"LINESTRING(100.000 0.000,100.000 100.000)\"\n13,3,4,7,0,,\"LINESTRING(100.000 100.000,\
            0.000 100.000)\"\n14,4,1,7,0,,\"LINESTRING(0.000 100.000,0.000 0.000)\"\n",
        ),
        (
            "points",
            "number,sources,WKT\n1,1,POINT(0.000 0.000)\n2,,POINT(100.000 0.000)\n3,,POINT(100.000 100.000)\n\
            4,,POINT(0.000 100.000)\n9,,POINT(50.000 80.000)\n",
        ),
    ] {
        let text = table(rt.alloc(), FIELD, layer).unwrap_or(Vec::new(rt.alloc()));
        assert!(rt; text.as_slice() == wanted.as_bytes());
    }
    Ok(())
}

#[test]
fn layers_without_geometry(rt: HostRuntime) -> Result<(), Fail> {
    for (layer, wanted) in [
        ("sources", "number,text\n4,Plan 7\n1,Plan 9\n"),
        ("retired", "number\n8\n3\n"),
    ] {
        let text = table(rt.alloc(), ENDED, layer).unwrap_or(Vec::new(rt.alloc()));
        assert!(rt; text.as_slice() == wanted.as_bytes());
    }
    Ok(())
}

#[test]
fn metres(rt: HostRuntime) -> Result<(), Fail> {
    for (millimetres, wanted) in [
        (0, "0.000"),
        (7, "0.007"),
        (-5, "-0.005"),
        (-1_050, "-1.050"),
        (999_999, "999.999"),
        (-10_000_000_000, "-10000000.000"),
    ] {
        let text = metres_text(rt.alloc(), millimetres)?;
        assert!(rt; text.as_slice() == wanted.as_bytes());
    }
    Ok(())
}

// What differs between two plans, to be compared with what was worked out.
const DIFFERENCES: [(Parts, Parts, &str); 8] = [
    // A fence makes a parcel of its own of the east.
    (
        FIELD,
        FENCED,
        "kind,number,was,is\n\
        point,9,50.000 80.000,\n\
        parcel,7,\"10000.00 m2 at 100.000 0.000, 100.000 100.000 by 1: Field & <pond>\",\
        \"6000.00 m2 at 60.000 0.000, 60.000 100.000 by 1: Field & <pond>\"\n\
        string,11,1 2 by 1,\n\
        string,13,3 4,\n\
        point,5,,60.000 0.000\n\
        point,6,,60.000 100.000\n\
        parcel,8,,4000.00 m2 by 1: East\n\
        string,21,,1 5 by 1\n\
        string,22,,5 2 by 1\n\
        string,23,,3 6\n\
        string,24,,6 4\n\
        string,31,,5 6\n",
    ),
    // The fence went, and the east with it.
    (
        FENCED,
        FIELD,
        "kind,number,was,is\n\
        point,5,60.000 0.000,\n\
        point,6,60.000 100.000,\n\
        parcel,7,\"6000.00 m2 at 60.000 0.000, 60.000 100.000 by 1: Field & <pond>\",\
        \"10000.00 m2 at 100.000 0.000, 100.000 100.000 by 1: Field & <pond>\"\n\
        parcel,8,4000.00 m2 by 1: East,\n\
        string,21,1 5 by 1,\n\
        string,22,5 2 by 1,\n\
        string,23,3 6,\n\
        string,24,6 4,\n\
        string,31,5 6,\n\
        point,9,,50.000 80.000\n\
        string,11,,1 2 by 1\n\
        string,13,,3 4\n",
    ),
    // One end of the fence moved along the lower side: 6500 = (70 + 60) / 2 * 100.
    (
        FENCED,
        SHIFTED,
        "kind,number,was,is\n\
        point,5,60.000 0.000,70.000 0.000\n\
        parcel,7,6000.00 m2 at 60.000 0.000 by 1: Field & <pond>,\
        6500.00 m2 at 70.000 0.000 by 1: Field & <pond>\n\
        parcel,8,4000.00 m2 at 60.000 0.000 by 1: East,3500.00 m2 at 70.000 0.000 by 1: East\n",
    ),
    // A merger ended the east. The ends of the fence are points on straight sides now.
    (
        FENCED,
        UNFENCED,
        "kind,number,was,is\n\
        parcel,7,\"6000.00 m2 at 60.000 0.000, 60.000 100.000 by 1: Field & <pond>\",\
        \"10000.00 m2 at 100.000 0.000, 100.000 100.000 by 1: Field & <pond>\"\n\
        parcel,8,4000.00 m2 by 1: East,retired\n\
        string,31,5 6,\n",
    ),
    // A point on a straight side changes no parcel.
    (
        FIELD,
        STUDDED,
        "kind,number,was,is\n\
        string,11,1 2 by 1,\n\
        point,5,,60.000 0.000\n\
        string,21,,1 5 by 1\n\
        string,22,,5 2 by 1\n",
    ),
    // A parcel is called otherwise.
    (
        FIELD,
        MEADOW,
        "kind,number,was,is\n\
        parcel,7,10000.00 m2 by 1: Field & <pond>,10000.00 m2 by 1: Meadow\n",
    ),
    // Two corners moved, and the parcel is as large as before.
    (
        FIELD,
        SLANTED,
        "kind,number,was,is\n\
        point,3,100.000 100.000,110.000 100.000\n\
        point,4,0.000 100.000,10.000 100.000\n\
        parcel,7,\"10000.00 m2 at 100.000 100.000, 0.000 100.000 by 1: Field & <pond>\",\
        \"10000.00 m2 at 110.000 100.000, 10.000 100.000 by 1: Field & <pond>\"\n",
    ),
    // A pond moved: no area changed.
    (
        POND,
        POND_EAST,
        "kind,number,was,is\n\
        point,5,40.000 40.000,50.000 40.000\n\
        point,6,60.000 40.000,70.000 40.000\n\
        point,10,60.000 60.000,70.000 60.000\n\
        point,11,40.000 60.000,50.000 60.000\n\
        parcel,7,\"9600.00 m2 at 40.000 60.000, 60.000 60.000, 60.000 40.000, 40.000 40.000 by 1: Field\",\
        \"9600.00 m2 at 50.000 60.000, 70.000 60.000, 70.000 40.000, 50.000 40.000 by 1: Field\"\n\
        parcel,8,\"400.00 m2 at 60.000 40.000, 60.000 60.000, 40.000 60.000, 40.000 40.000: Pond\",\
        \"400.00 m2 at 70.000 40.000, 70.000 60.000, 50.000 60.000, 50.000 40.000: Pond\"\n",
    ),
];

#[test]
fn what_differs(rt: HostRuntime) -> Result<(), Fail> {
    for (old, new, wanted) in DIFFERENCES {
        let text = differences(rt.alloc(), old, new).unwrap_or(Vec::new(rt.alloc()));
        assert!(rt; text.as_slice() == wanted.as_bytes());
    }
    Ok(())
}

#[test]
fn nothing_differs(rt: HostRuntime) -> Result<(), Fail> {
    for same in [FIELD, FENCED, UNFENCED, POND] {
        let text = differences(rt.alloc(), same, same).unwrap_or(Vec::new(rt.alloc()));
        assert!(rt; text.as_slice() == b"kind,number,was,is\n".as_slice());
    }
    Ok(())
}
