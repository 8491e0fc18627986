// The calls that are compared, each a row of the tally.

#[derive(Clone, Copy)]
pub enum Call {
    Normalise,
    CountCells,
    ToOutline,
    VertexPlace,
    ToOctagon,
    Decompose,
    Dilate,
    Erode,
    Closing,
    Opening,
    DilateN,
    ErodeN,
    // Two calls one after the other.
    DilateMN,
    ErodeMN,
    // The plot opened by the element spread with the third octagon.
    OpenByBoth,
}

// The calls in the order of their rows.
pub const CALLS: [Call; 15] = [
    Call::Normalise,
    Call::CountCells,
    Call::ToOutline,
    Call::VertexPlace,
    Call::ToOctagon,
    Call::Decompose,
    Call::Dilate,
    Call::Erode,
    Call::Closing,
    Call::Opening,
    Call::DilateN,
    Call::ErodeN,
    Call::DilateMN,
    Call::ErodeMN,
    Call::OpenByBoth,
];

impl Call {
    pub fn name(self) -> &'static str {
        match self {
            Call::Normalise => "normalise",
            Call::CountCells => "count_cells",
            Call::ToOutline => "to_outline",
            Call::VertexPlace => "vertex_place",
            Call::ToOctagon => "to_octagon",
            Call::Decompose => "decompose",
            Call::Dilate => "dilate",
            Call::Erode => "erode",
            Call::Closing => "closing",
            Call::Opening => "opening",
            Call::DilateN => "dilate_n",
            Call::ErodeN => "erode_n",
            Call::DilateMN => "dilate_m_n",
            Call::ErodeMN => "erode_m_n",
            Call::OpenByBoth => "open_by_both",
        }
    }
}
