// Random cases from a seed.
pub mod calls;
pub mod cases;
pub mod damage;
pub mod limits;
pub mod mesh;
pub mod numbers;
pub mod records;
pub mod text;
