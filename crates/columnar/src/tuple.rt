//! Tuples of columns.

pub use columnar_base::tuple::eight::parts_of_eight;
pub use columnar_base::tuple::five::parts_of_five;
pub use columnar_base::tuple::four::parts_of_four;
pub use columnar_base::tuple::nine::parts_of_nine;
pub use columnar_base::tuple::seven::parts_of_seven;
pub use columnar_base::tuple::six::parts_of_six;
pub use columnar_base::tuple::ten::parts_of_ten;
pub use columnar_base::tuple::three::parts_of_three;
pub use columnar_core::tuple::parts;
