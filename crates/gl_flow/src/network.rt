//! What the steps between the nodes of a sheet are read off.
ghost use Rattle.gl_flow.specs.Planning.{plan_of, IsNetwork};

use crate::boxes::Area;
use crate::reading::Piece;
use gl_plane::Addr;

/// The formula cells with what stands in them and their areas, and what each address reads of.
pub struct Network {
    pub places: Vec<Addr>,
    pub pieces: Vec<Vec<Piece>>,
    pub areas: Vec<Option<Area>>,
    /// what each address reads of, column by column
    pub columns: Vec<Vec<u16>>,
    /// the last row of the areas of each block of formula cells
    pub bottoms: Vec<u32>,
    ghost sound: { IsNetwork (plan_of places.items pieces.items areas.items columns.items)
        bottoms.items },
}

// One call wherever it is dropped, in place of one for each part.
impl Drop for Network {
    fn drop(self) {
        let Network {
            places,
            pieces,
            areas,
            columns,
            bottoms,
        } = self;
    }
}
