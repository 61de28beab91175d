// The reports of the symmetries of some systems up to a degree, from a model that was written apart.

pub const GROWTH_TO_ZERO: &[u8] =
    b"lie degree 1\nvars x\ndeps u\ndegree 0\ngenerators 1\nv1 = d_x\nend\n";

pub const GROWTH_TO_ONE: &[u8] =
    b"lie degree 1\nvars x\ndeps u\ndegree 1\ngenerators 2\nv1 = d_x\nv2 = u*d_u\nend\n";

pub const PAINLEVE: &[u8] = b"lie degree 1\nvars x\ndeps u\ndegree 2\ngenerators 0\nend\n";

pub const LAPLACE: &[u8] =
    b"lie degree 1\nvars x y\ndeps u\ndegree 1\ngenerators 8\nv1 = d_x\nv2 = x*d_x + y*d_y\nv3 = \
    y*d_x - x*d_y\nv4 = d_y\nv5 = d_u\nv6 = x*d_u\nv7 = y*d_u\nv8 = u*d_u\nend\n";

pub const HEAT_TO_TWO: &[u8] =
    b"lie degree 1\nvars x t\ndeps u\ndegree 2\ngenerators 8\nv1 = d_x\nv2 = x*d_x + 2*t*d_t\nv3 = \
    2*t*d_x - x*u*d_u\nv4 = d_t\nv5 = d_u\nv6 = x*d_u\nv7 = x^2*d_u + 2*t*d_u\nv8 = u*d_u\nend\n";

pub const HEAT_TO_THREE: &[u8] =
    b"lie degree 1\nvars x t\ndeps u\ndegree 3\ngenerators 10\nv1 = d_x\nv2 = x*d_x + 2*t*d_t\nv3 \
    = 2*t*d_x - x*u*d_u\nv4 = 4*x*t*d_x + 4*t^2*d_t - x^2*u*d_u - 2*t*u*d_u\nv5 = d_t\nv6 = d_u\n\
    v7 = x*d_u\nv8 = x^2*d_u + 2*t*d_u\nv9 = u*d_u\nv10 = x^3*d_u + 6*x*t*d_u\nend\n";

pub const WAVE: &[u8] =
    b"lie degree 1\nvars x y t\ndeps u\ndegree 2\ngenerators 20\nv1 = d_x\nv2 = x*d_x + y*d_y + \
    t*d_t\nv3 = y*d_x - x*d_y\nv4 = t*d_x + x*d_t\nv5 = x^2*d_x - y^2*d_x + t^2*d_x + 2*x*y*d_y + \
    2*x*t*d_t - x*u*d_u\nv6 = 2*x*y*d_x - x^2*d_y + y^2*d_y + t^2*d_y + 2*y*t*d_t - y*u*d_u\nv7 = \
    2*x*t*d_x + 2*y*t*d_y + x^2*d_t + y^2*d_t + t^2*d_t - t*u*d_u\nv8 = d_y\nv9 = t*d_y + y*d_t\n\
    v10 = d_t\nv11 = d_u\nv12 = x*d_u\nv13 = y*d_u\nv14 = t*d_u\nv15 = u*d_u\nv16 = x^2*d_u + \
    t^2*d_u\nv17 = x*y*d_u\nv18 = x*t*d_u\nv19 = y^2*d_u + t^2*d_u\nv20 = y*t*d_u\nend\n";

pub const STEEP: &[u8] =
    b"lie degree 1\nvars x t\ndeps u\ndegree 2\ngenerators 5\nv1 = d_x\nv2 = x*d_x + 2*t*d_t - \
    u*d_u\nv3 = 6521908912666391106*t*d_x - d_u\nv4 = 6521908912666391106*x*t*d_x + \
    6521908912666391106*t^2*d_t - 6521908912666391106*t*u*d_u - x*d_u\nv5 = d_t\nend\n";
