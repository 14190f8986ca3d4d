// Regular formulas in modalities as definitions (document 02, #104): see specs/, in the order of specs/Lib.antt. There
// is no code here.
