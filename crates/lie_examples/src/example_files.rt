// The files of the directory `examples`, each with the first line of its comment alone.

pub const GROWTH: &[u8] =
    b"# Exponential growth, the equation of the first run.\nlie 1\nvars x\ndeps u\neq u_x = u\n\
    end\n";

pub const SLOPE: &[u8] =
    b"# A slope that is told: the solutions are the parabolas with a known second derivative.\n\
    lie 1\nvars x\ndeps u\neq u_x = x\nend\n";

pub const LINE: &[u8] =
    b"# Straight lines: the equation of second order with the most symmetries.\nlie 1\nvars x\n\
    deps y\neq y_xx = 0\nend\n";

pub const BLASIUS: &[u8] =
    b"# The equation of Blasius: the boundary layer along a flat plate.\nlie 1\nvars x\ndeps u\n\
    eq 2*u_xxx + u*u_xx = 0\nend\n";

pub const CHAZY: &[u8] =
    b"# The equation of Chazy, whose solutions have a boundary that they do not cross.\nlie 1\n\
    vars x\ndeps u\neq u_xxx = 2*u*u_xx - 3*u_x^2\nend\n";

pub const PAINLEVE: &[u8] =
    b"# The first equation of Painleve.\nlie 1\nvars x\ndeps u\neq u_xx = 6*u^2 + x\nend\n";

pub const HEAT: &[u8] =
    b"# The heat equation on a line.\nlie 1\nvars x t\ndeps u\neq u_t = u_xx\nend\n";

pub const BURGERS: &[u8] =
    b"# The equation of Burgers: a wave that steepens, with diffusion.\nlie 1\nvars x t\ndeps u\n\
    eq u_t = u_xx - u*u_x\nend\n";

pub const FISHER: &[u8] =
    b"# The equation of Fisher: a population that grows and spreads.\nlie 1\nvars x t\ndeps u\n\
    eq u_t = u_xx + u - u^2\nend\n";

pub const KORTEWEG_DE_VRIES: &[u8] =
    b"# The equation of Korteweg and de Vries: long waves on shallow water.\nlie 1\nvars x t\n\
    deps u\neq u_t + u*u_x + u_xxx = 0\nend\n";

pub const BOUSSINESQ: &[u8] =
    b"# The equation of Boussinesq: long waves that run both ways.\nlie 1\nvars x t\ndeps u\n\
    eq u_tt + u*u_xx + u_x^2 + u_xxxx = 0\nend\n";

pub const LAPLACE: &[u8] =
    b"# The equation of Laplace in the plane.\nlie 1\nvars x y\ndeps u\neq u_xx + u_yy = 0\nend\n";

pub const WAVE: &[u8] =
    b"# The wave equation in two dimensions of space.\nlie 1\nvars x y t\ndeps u\n\
    eq u_tt = u_xx + u_yy\nend\n";

pub const KADOMTSEV_PETVIASHVILI: &[u8] =
    b"# The equation of Kadomtsev and Petviashvili: waves on shallow water that bend a little.\n\
    lie 1\nvars x y t\ndeps u\neq u_xt + u*u_xx + u_x^2 + u_xxxx + u_yy = 0\nend\n";

pub const LORENZ: &[u8] =
    b"# The system of Lorenz, with the numbers 10, 28 and 8/3.\nlie 1\nvars t\ndeps x y z\n\
    eq x_t = 10*y - 10*x\neq y_t = 28*x - x*z - y\neq 3*z_t = 3*x*y - 8*z\nend\n";

pub const SCHROEDINGER: &[u8] =
    b"# The cubic equation of Schroedinger, with u and v for the real and the imaginary part.\n\
    lie 1\nvars x t\ndeps u v\neq u_t = -v_xx - u^2*v - v^3\neq v_t = u_xx + u^3 + u*v^2\nend\n";

pub const EULER: &[u8] =
    b"# The equations of Euler for the flow of an incompressible fluid in the plane, with u_x put \
    in from the first.\nlie 1\nvars x y t\ndeps u v p\neq u_x = -v_y\n\
    eq u_t = u*v_y - v*u_y - p_x\neq v_t = -u*v_x - v*v_y - p_y\nend\n";
