//! The order of clusters from left to right, and the columns at their edges.

ghost use Rattle.std.specs.Prelude.{◌≡◌, drop, IsPermutation, OnOk};
ghost use Rattle.bidi_base.specs.Indexes.{indexes};
ghost use Rattle.bidi_base.specs.Layout.{AreInverse};
ghost use Rattle.bidi_display.specs.DisplayedLine.{cluster_order, edges as edges_of, levels_of};

use crate::line_cluster::LineCluster;
use bidi_base::level::Level;
use bidi_lines::visual_order::write_visual_order;
use std::alloc::AllocError;

// Replaces a list by the levels of clusters.
fn collect_levels(clusters: &[LineCluster], out: &mut Vec<Level>) -> Result<(), AllocError>
    ensures { OnOk result (out.new.items ≡ levels_of clusters.now) }
{
    out.clear();
    out.reserve(clusters.len())?;
    for cluster in clusters {
        out.push(cluster.level)?;
    }
    Ok(())
}

// Replaces a list by the clusters from left to right (L2), as their indexes. `levels` is a buffer.
pub(crate) fn find_order(
    clusters: &[LineCluster],
    levels: &mut Vec<Level>,
    order: &mut Vec<usize>,
) -> Result<(), AllocError>
    ensures { OnOk result (order.new.items ≡ cluster_order clusters.now) }
{
    collect_levels(clusters, levels)?;
    order.resize(clusters.len(), 0)?;
    write_visual_order(levels.as_slice(), order.as_mut_slice());
    Ok(())
}

// Replaces a list by the inverse of an order.
pub(crate) fn find_places(order: &[usize], places: &mut Vec<usize>) -> Result<(), AllocError>
    requires { IsPermutation (indexes order.now) order.now }
    ensures { OnOk result (AreInverse order.now places.new.items) }
{
    places.resize(order.len(), 0)?;
    for (place, index) in order.iter().enumerate() {
        places[*index] = place;
    }
    Ok(())
}

// Replaces a list by the columns at the right edges of the clusters, from left to right.
pub(crate) fn find_right_edges(
    clusters: &[LineCluster],
    order: &[usize],
    right_edges: &mut Vec<usize>,
) -> Result<(), AllocError>
    requires { order.now ≡ cluster_order clusters.now }
    ensures { OnOk result (right_edges.new.items ≡ drop 1 (edges_of clusters.now)) }
{
    right_edges.clear();
    right_edges.reserve(order.len())?;
    let mut column = 0usize;
    for index in order {
        column = column.saturating_add(clusters[*index].width);
        right_edges.push(column)?;
    }
    Ok(())
}
