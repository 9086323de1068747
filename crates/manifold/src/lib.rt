// Polygons, complexes of pieces and their meshes: definitions in specs/, laws in proofs/.
#![tactic(auto)]
